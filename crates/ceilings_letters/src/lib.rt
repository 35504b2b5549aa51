// The letters under a ceiling: those that it holds, and those whose rules have to be looked at one by one. A rule that
// reads a letter which the ceiling does not hold can't be used at its counts; and one that puts a letter is covered
// where some ceiling that covers the step without the letter holds one more of it.
#![tactic(auto)]

ghost use Rattle.std.specs.Prelude.{◌≡◌, true, ℕ, ◌*◌, ◌≤◌, ◌<◌};
ghost use Rattle.bits.specs.Bits.{Row};
ghost use Rattle.masks.specs.Masks.{has};
ghost use Rattle.model.specs.Limits.{max_counters};
ghost use Rattle.model.specs.Rows.{program};
ghost use Rattle.model.specs.Tables.{tables};
ghost use Rattle.lists.specs.Ready.{Ready};
ghost use Rattle.layout.specs.Tables.{Ends};
ghost use Rattle.ceilings_masks.specs.Compared.{takes_more};
ghost use Rattle.ceilings_letters.specs.Letters.{Under, LettersRoom, is_held_of, HeldSet, OneMore};
ghost use Rattle.ceilings_letters.specs.Letters.{OpenSet, Narrowed};

use ceilings::limit;
use ceilings_covers::left_moved;
use ceilings_masks::Over;
use lists::state_location;
use masks::{Mask, and, is_none, load};
use model::{Sizes, TAG_SEND};
use onward::onward;
use positions::rest;
use program::rows::tag;
use sets::{clear, copy_into, holds, put};

// The letters that ceiling k holds, as a set, where they are asked for. Else nothing is promised of the set, nor ever
// of bits behind the last letter: no one reads them. (Whether they are asked for is the same for all ceilings, and the
// set is room for each: an `Option` of the lent set would be made anew for each ceiling.)
pub fn held_letters(
    asked: bool,
    s: Sizes,
    n: usize,
    limits: &[u16],
    k: usize,
    words: usize,
    within: &mut [u64],
)
    requires { LettersRoom s n k words limits.now within.old }
    ensures { asked ≡ true →
        HeldSet limits.now s.ceilings n k s.states words within.new }
{
    if !asked {
        return;
    }
    clear(within, words, 0);
    for x in s.states..n {
        if limit(limits, s.ceilings, k, x) == 0 {
            continue;
        }
        put(within, words, 0, x - s.states);
    }
}

// The ceilings that hold one more than ceiling k at counter x, by whether that holds it. (The limits are there for the
// contract alone: a look at one costs more than all the rest.)
fn one_more_by(
    is_held: bool,
    limits: &[u16],
    ceilings: usize,
    n: usize,
    k: usize,
    holders: &[u64],
    near: &[u64],
    x: usize,
) -> Mask
    requires one_more { OneMore limits.now ceilings n k holders.now near.now }
    requires x_lt_n { (x < n) × (n ≤ max_counters) }
    requires is_held_value { is_held ≡ is_held_of limits.now ceilings k x }
    ensures { (j : ℕ) → j < 256 → has result j ≡ takes_more limits.now ceilings k x j }
{
    if is_held {
        let second = 2 * x + 1;
        return load(near, second);
    }
    let first = 3 * x;
    load(holders, first)
}

// The letters at which no ceiling of the mask holds one more than ceiling k.
fn open_letters(
    s: Sizes,
    n: usize,
    limits: &[u16],
    k: usize,
    holders: &[u64],
    near: &[u64],
    words: usize,
    within: &[u64],
    mask: Mask,
    uncovered: &mut [u64],
)
    requires letters_room { LettersRoom s n k words limits.now uncovered.old }
    requires one_more { OneMore limits.now s.ceilings n k holders.now near.now }
    requires row { Row within.now words 0 }
    requires held_set { HeldSet limits.now s.ceilings n k s.states words within.now }
    ensures { OpenSet limits.now s.ceilings n k s.states words mask uncovered.new }
{
    clear(uncovered, words, 0);
    for x in s.states..n {
        let y = x - s.states;
        let is_held = holds(within, words, 0, y);
        let raised = one_more_by(is_held, limits, s.ceilings, n, k, holders, near, x);
        if !is_none(and(mask, raised)) {
            continue;
        }
        put(uncovered, words, 0, y);
    }
}

// Where that is wanted, the letters whose rules of state i have to be looked at under ceiling k: of a send those that
// are not covered by a ceiling that covers the step without the letter; else those that the ceiling holds. What is left
// free is how few they are: any set does whose other letters lead out of nothing.
pub fn asked_letters(
    wanted: bool,
    ws: &[u16],
    s: Sizes,
    afters: &[u16],
    at: &[u16],
    n: usize,
    limits: &[u16],
    holders: &[u64],
    over: Over,
    near: &[u64],
    k: usize,
    i: usize,
    left: Mask,
    words: usize,
    within: &[u64],
    asked: &mut [u64],
)
    requires ready { Ready ws.now s × Ends (program ws.now s) afters.now }
    requires under { Under ws.now s n k i words limits.now holders.now over near.now left wanted within.now }
    requires letters_room { LettersRoom s n k words limits.now asked.old }
    ensures { Narrowed (program ws.now s) (tables ws.now s) limits.now
        s.ceilings n k i wanted asked.new }
{
    if !wanted {
        return;
    }
    let r = state_location(ws, s, i);
    if tag(ws, s, r) != TAG_SEND {
        copy_into(asked, within, words, 0, 0);
        return;
    }
    let e = rest(ws, s, afters, r);
    let to = onward(ws, s, at, i, e);
    let mask = left_moved(
        limits, s.ceilings, n, holders, over, near, k, s.states, left, i, to,
    );
    open_letters(s, n, limits, k, holders, near, words, within, mask, asked);
}
