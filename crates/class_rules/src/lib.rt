// The rules for the letters of a class that a set has, and another set too where only letters of it are asked for.
#![tactic(auto)]

ghost use Rattle.std.specs.Prelude.{◌≡◌, ℕ, ◌+◌, ◌*◌, ◌≤◌, ◌<◌, length, get_or, option_copied};
ghost use Rattle.bits.specs.Bits.{member, Row};
ghost use Rattle.model.specs.Index.{any};
ghost use Rattle.model.specs.Rows.{Kind};
ghost use Rattle.rules.specs.Listed.{kind_effect};
ghost use Rattle.rules.specs.Added.{Added};
ghost use Rattle.rules.specs.Within.{AskedRow};
ghost use Rattle.class_rules.specs.Asked.{LetterRoom, class_turn, asked_of, class_asked};

use lists::word;
use model::Sizes;
use sets::{copy_into, holds, meets, take_from};

// A rule to the state `next` for each letter of class d that set 0 has, with its counter; n rules stand in the lists.
fn letter_rules(
    s: Sizes,
    letter_at: &[u16],
    found: &[u64],
    words: usize,
    d: usize,
    next: u16,
    n: usize,
    tos: &mut [u16],
    others: &mut [u16],
) -> usize
    requires { LetterRoom s.states letter_at.now found.now tos.old others.old words n d }
    ensures added { (k : Kind) → Added k tos.old others.old n tos.new
        others.new result (class_turn s.states letter_at.now
        (member found.now words 0) (kind_effect k) next d) }
    ensures d_bound { result + get_or letter_at.now d 0 ≤ n + get_or letter_at.now (d + 1) 0 }
{
    let from = word(letter_at, d);
    let to = word(letter_at, d + 1);
    let mut e = n;
    for y in from..to {
        if !holds(found, words, 0, y) {
            continue;
        }
        let x = s.states + y;
        tos[e] = next;
        others[e] = x as u16;
        e += 1;
    }
    e
}

// Takes from set 0 what the set `within` does not have, where only letters of a set are asked for. `part` is scratch,
// of which nothing is promised afterwards.
fn keep_within(within: Option<&[u64]>, words: usize, part: &mut [u64], found: &mut [u64])
    requires { AskedRow (option_copied within) words × Row part.old words 0 × Row found.old words 0 }
    ensures { (y : ℕ) → y < 64 * words → member found.new words 0 y ≡
        asked_of words (option_copied within.entry) found.old y }
{
    match within {
        None => {}
        Some(set) => {
            copy_into(part, found, words, 0, 0);
            take_from(part, set, words, 0, 0);
            take_from(found, part, words, 0, 0);
        }
    }
}

// Class d has a letter of the set.
fn has_letter(letter_at: &[u16], set: &[u64], words: usize, d: usize) -> bool
    requires d_in_bounds { d + 1 < length letter_at.now }
    requires d_bound { get_or letter_at.now (d + 1) 0 ≤ 64 * words }
    requires row { Row set.now words 0 }
    ensures { result ≡ any (get_or letter_at.now d 0) (get_or letter_at.now (d + 1) 0)
        (member set.now words 0) }
{
    let from = word(letter_at, d);
    let to = word(letter_at, d + 1);
    for y in from..to {
        if holds(set, words, 0, y) {
            return true;
        }
    }
    false
}

// Class d has a letter that is asked for: one of the set `within`; where all are, that is not looked at.
pub fn asks_class(letter_at: &[u16], within: Option<&[u64]>, words: usize, d: usize) -> bool
    requires d_in_bounds { d + 1 < length letter_at.now }
    requires d_bound { get_or letter_at.now (d + 1) 0 ≤ 64 * words }
    requires row { AskedRow (option_copied within) words }
    ensures { result ≡ class_asked words (option_copied within.entry) (get_or letter_at.now d 0)
        (get_or letter_at.now (d + 1) 0) }
{
    match within {
        None => true,
        Some(set) => has_letter(letter_at, set, words, d),
    }
}

// A rule to the state `next` for each letter of class d that the set `found` has and that is asked for. Of both sets
// that are lent to change nothing is promised afterwards.
pub fn class_rules(
    s: Sizes,
    letter_at: &[u16],
    words: usize,
    d: usize,
    next: u16,
    within: Option<&[u64]>,
    n: usize,
    part: &mut [u64],
    found: &mut [u64],
    tos: &mut [u16],
    others: &mut [u16],
) -> usize
    requires letter_room { LetterRoom s.states letter_at.now found.old tos.old others.old words n d }
    requires row { AskedRow (option_copied within) words × Row part.old words 0 }
    ensures added { (k : Kind) → Added k tos.old others.old n tos.new
        others.new result (class_turn s.states letter_at.now
        (asked_of words (option_copied within.entry) found.old) (kind_effect k) next d) }
    ensures d_bound { result + get_or letter_at.now d 0 ≤ n + get_or letter_at.now (d + 1) 0 }
{
    keep_within(within, words, part, found);
    // Most ceilings hold no letter that a branch reads, and a class may have a thousand.
    if !meets(found, found, words, 0, 0) {
        return n;
    }
    letter_rules(s, letter_at, found, words, d, next, n, tos, others)
}
