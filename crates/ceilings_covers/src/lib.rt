// Which ceilings may cover the counts after a step from the highest counts of a ceiling, as a mask; and the test of
// one of them.
#![tactic(auto)]

ghost use Rattle.std.specs.Prelude.{◌≡◌, true, false, ◌&&◌, ◌||◌, ℕ, ◌+◌, ◌*◌, ◌≤◌, ◌<◌, eqb, length};
ghost use Rattle.bits.specs.Bits.{Row};
ghost use Rattle.masks.specs.Masks.{has};
ghost use Rattle.model.specs.Index.{any};
ghost use Rattle.model.specs.Markings.{usable};
ghost use Rattle.model.specs.Ceilings.{highest};
ghost use Rattle.steps.specs.Steps.{rule_of_step, does_add_other};
ghost use Rattle.ceilings.specs.Table.{held};
ghost use Rattle.ceilings_masks.specs.Compared.{takes_more, Beside};
ghost use Rattle.ceilings_covers.specs.Covers.{
  Left,
  Candidates,
  Raised,
  Exact,
  StepApart,
  Taken,
  moved,
  passes,
  sure,
  named,
};

use ceilings::{highest, limit};
use ceilings_form::limits::is_allowed;
use ceilings_masks::{Over, allowing};
use masks::{Mask, and, below, is_none, load, none, or, without};
use steps::{Step, limit_after, raised, takes_other};

// So many counters are named by a step.
pub const NAMED: usize = 3;

// The ceilings that hold the highest counts of ceiling k with one less at counter i.
pub fn left_after(
    limits: &[u16],
    ceilings: usize,
    n: usize,
    holders: &[u64],
    over: Over,
    near: &[u64],
    k: usize,
    i: usize,
) -> Mask
    requires beside { Beside limits.now ceilings n k holders.now over near.now }
    requires i_lt_n { (i < n) × (1 ≤ held limits.now ceilings k i) }
    ensures { Left limits.now ceilings n k i result }
{
    let whole = without(below(ceilings), over.once);
    let first = 2 * i;
    let by_one = without(load(near, first), over.twice);
    or(whole, by_one)
}

// The ceilings that hold one more than ceiling k at counter y. The table has a set for each counter that ceiling k
// limits; where it has none its limit is 0, which is raised here.
fn one_more_at(
    limits: &[u16],
    ceilings: usize,
    n: usize,
    holders: &[u64],
    over: Over,
    near: &[u64],
    k: usize,
    y: usize,
) -> Mask
    requires beside { Beside limits.now ceilings n k holders.now over near.now }
    requires y_lt_n { y < n }
    ensures { (j : ℕ) → j < 256 → has result j ≡ takes_more limits.now ceilings k y j }
{
    if limit(limits, ceilings, k, y) == 0 {
        return allowing(limits, ceilings, n, holders, y, raised(0) as usize);
    }
    let second = 2 * y + 1;
    load(near, second)
}

// Of the ceilings that hold the highest counts of ceiling k with one less at counter i, those that hold one more at the
// state `to`; none where that is i, or none of the states.
pub fn left_moved(
    limits: &[u16],
    ceilings: usize,
    n: usize,
    holders: &[u64],
    over: Over,
    near: &[u64],
    k: usize,
    states: usize,
    left: Mask,
    i: usize,
    to: usize,
) -> Mask
    requires beside { Beside limits.now ceilings n k holders.now over near.now }
    requires states_le_n { states ≤ n }
    ensures { (j : ℕ) → j < 256 → has result j ≡ moved limits.now ceilings states k i to left j }
{
    if to == i {
        return none();
    }
    if to >= states {
        return none();
    }
    let raised = one_more_at(limits, ceilings, n, holders, over, near, k, to);
    and(left, raised)
}

// The candidates for a step, by the counters that it takes from: those of the mask `left`, of the counter that it comes
// from; and where it reads a counter, those that hold the highest counts with one less there too.
fn by_taken(over: Over, near: &[u64], left: Mask, step: Step) -> Mask
    requires { step.kind ≡ 1 → Row near.now 4 (2 * step.from) × Row near.now 4 (2 * step.other) }
    ensures { Taken over near.now left step result }
{
    if step.kind != 1 {
        return left;
    }
    let from = 2 * step.from;
    let other = 2 * step.other;
    let by_one = load(near, other);
    let once = without(by_one, over.twice);
    let twice = without(and(load(near, from), by_one), over.thrice);
    or(or(left, once), twice)
}

// Of these candidates, those that hold one more at a counter to which the step adds.
fn by_added(
    limits: &[u16],
    ceilings: usize,
    n: usize,
    holders: &[u64],
    over: Over,
    near: &[u64],
    k: usize,
    step: Step,
    y: usize,
    m: Mask,
) -> Mask
    requires beside { Beside limits.now ceilings n k holders.now over near.now }
    requires step_apart { StepApart n step }
    requires y_value { (eqb y step.to || does_add_other step y) ≡ true }
    requires candidates { Candidates limits.now ceilings n k step m }
    ensures candidates_2 { Candidates limits.now ceilings n k step result }
    ensures raised { Raised limits.now ceilings n k step y m result }
{
    if n <= y {
        return m;
    }
    if y == step.from {
        return m;
    }
    if takes_other(step, y) {
        return m;
    }
    and(
        m,
        one_more_at(limits, ceilings, n, holders, over, near, k, y),
    )
}

// The candidates for a step that can be used at the highest counts of ceiling k.
pub fn candidates(
    limits: &[u16],
    ceilings: usize,
    n: usize,
    holders: &[u64],
    over: Over,
    near: &[u64],
    k: usize,
    left: Mask,
    step: Step,
) -> Mask
    requires beside { Beside limits.now ceilings n k holders.now over near.now }
    requires step_apart { StepApart n step }
    requires left { Left limits.now ceilings n k step.from left }
    requires k_value { usable (rule_of_step step) (highest (held limits.now ceilings k)) ≡ true }
    ensures candidates { Candidates limits.now ceilings n k step result }
    ensures exact { Exact limits.now ceilings n k step result }
{
    let taken = by_taken(over, near, left, step);
    let to = by_added(
        limits, ceilings, n, holders, over, near, k, step, step.to, taken,
    );
    if step.kind < 2 {
        return to;
    }
    by_added(
        limits, ceilings, n, holders, over, near, k, step, step.other, to,
    )
}

// The step takes from one counter alone, and adds to others alone, to each once: its candidates all cover.
pub fn is_sure(step: Step) -> bool
    ensures { result ≡ sure step }
{
    if step.kind == 1 {
        return false;
    }
    if step.to == step.from {
        return false;
    }
    if step.kind < 2 {
        return true;
    }
    if step.other == step.from {
        return false;
    }
    step.other != step.to
}

// The step is sure, and has a candidate.
pub fn surely_covered(step: Step, m: Mask) -> bool
    ensures { result ≡ (sure step && any 0 256 (has m)) }
{
    is_sure(step) && !is_none(m)
}

// The step can be used at the highest counts of ceiling k.
pub fn is_usable(limits: &[u16], ceilings: usize, n: usize, k: usize, step: Step) -> bool
    requires k_lt_ceilings { (k < ceilings) × (n * ceilings ≤ length limits.now) }
    requires step_apart { StepApart n step }
    ensures { result ≡ usable (rule_of_step step) (highest (held limits.now ceilings k)) }
{
    if highest(limits, ceilings, k, step.from) == 0 {
        return false;
    }
    if step.kind != 1 {
        return true;
    }
    1 <= highest(limits, ceilings, k, step.other)
}

// Counter b of the three that a step names.
pub fn named(step: Step, b: usize) -> usize
    requires { b < 3 }
    ensures { result ≡ named step b }
{
    [step.to, step.from, step.other][b]
}

// Ceiling k2 allows what counter y has after the step from the highest counts of ceiling k.
pub fn passes(limits: &[u16], ceilings: usize, k: usize, k2: usize, step: Step, y: usize) -> bool
    requires k_lt_ceilings { (k < ceilings) × (k2 < ceilings) }
    requires row { Row limits.now ceilings y }
    requires kind_bound { step.kind ≤ 3 }
    ensures { result ≡ passes limits.now ceilings k k2 step y }
{
    let after = limit_after(highest(limits, ceilings, k, y), step, y);
    is_allowed(limit(limits, ceilings, k2, y), after as usize)
}
