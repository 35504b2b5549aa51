// A limit raised by one; a rule by value, and the limit of a counter after it.
#![tactic(auto)]

ghost use Rattle.std.specs.Prelude.{◌≡◌, ◌-◌, ◌≤◌};
ghost use Rattle.model.specs.Limits.{omega_limit};
ghost use Rattle.steps.specs.Steps.{effect_kind_of, does_take_other, does_add_other, one_less_if};
ghost use Rattle.steps.specs.Steps.{raised, one_more_if, limit_from_sum, limit_after_step};

use model::{OMEGA, TAG_RECEIVE, TAG_SEND, TAG_SPAWN};

// A rule: from a counter to a counter, and by its kind nothing (0), another counter read (1) or put (2), or a new
// state (3). The kind is a number, since the clauses of `effect_kind` and of the crates that build steps count it so.
#[derive(Clone, Copy)]
pub struct Step {
    pub from: usize,
    pub to: usize,
    pub kind: usize,
    pub other: usize,
}

// The kind of the rules at a head with this tag.
pub fn effect_kind(tag: usize) -> usize
    ensures value { result ≡ effect_kind_of tag }
    ensures upper_bound { result ≤ 3 }
{
    if tag == TAG_SEND {
        return 2;
    }
    if tag == TAG_SPAWN {
        return 3;
    }
    if tag == TAG_RECEIVE { 1 } else { 0 }
}

// The limit that means unbounded.
const UNBOUNDED: u16 = OMEGA as u16;

// One more of a limit: one times the truth of being below the unbounded mark is added, in a wider number. So 65,534
// goes on to 65,535, which lies under unbounded alone, and the mark stays.
pub fn raised(limit: u16) -> u32
    ensures value { result ≡ raised limit }
    ensures upper_bound { result ≤ omega_limit }
{
    limit as u32 + 1 * (limit < UNBOUNDED) as u32
}

fn raise_if(test: bool, limit: u16) -> u16
    ensures { result ≡ one_more_if test limit }
{
    if test { raised(limit) as u16 } else { limit }
}

// A count as a limit: unbounded where it is past every limit.
pub fn as_limit(count: usize) -> u16
    ensures { result ≡ limit_from_sum count }
{
    if count < OMEGA {
        count as u16
    } else {
        UNBOUNDED
    }
}

// One less of a count, and 0 of none.
pub fn one_less(count: usize) -> usize
    ensures { result ≡ count - 1 }
{
    count.saturating_sub(1)
}

fn less_if(test: bool, count: usize) -> usize
    ensures { result ≡ one_less_if test count }
{
    if test { one_less(count) } else { count }
}

pub fn takes_other(step: Step, y: usize) -> bool
    ensures { result ≡ does_take_other step y }
{
    step.kind == 1 && y == step.other
}

fn adds_other(step: Step, y: usize) -> bool
    ensures { result ≡ does_add_other step y }
{
    2 <= step.kind && y == step.other
}

// The limit of counter y after the step, where its highest count was `count`: what the step takes is taken from the
// count, what it adds raises the limit.
pub fn limit_after(count: usize, step: Step, y: usize) -> u16
    ensures { result ≡ limit_after_step count step y }
{
    let left = less_if(y == step.from, count);
    let taken = less_if(takes_other(step, y), left);
    let moved = raise_if(y == step.to, as_limit(taken));
    raise_if(adds_other(step, y), moved)
}
