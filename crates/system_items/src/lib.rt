// The tables of the items' counters, as the check of bads under the ceilings is handed them (refusal 12).
#![tactic(auto)]

ghost use Rattle.std.specs.Prelude.{◌≡◌, true, ◌+◌, ◌≤◌, ◌<◌, get_or, eqb};
ghost use Rattle.model.specs.Words.{left, right};
ghost use Rattle.model.specs.Rows.{program};
ghost use Rattle.model.specs.Tables.{tables};
ghost use Rattle.model.specs.Bads.{bad_rows};
ghost use Rattle.model.specs.Counters.{letter_count_of};
ghost use Rattle.lists.specs.Lists.{head_from, head_to};
ghost use Rattle.lists.specs.Ready.{Ready};
ghost use Rattle.system_letters.specs.Letters.{letter_at_of, letters_before, digits};
ghost use Rattle.bads_rows.specs.Items.{subject_from, Range, ItemsCounted};
ghost use Rattle.system_items.specs.Stretches.{LettersFilled, SetsFilled, ItemsRoom};
ghost use Rattle.system_items.specs.Stretches.{is_named_of, names_letters_of, Stretched};

use bads::letter_arity;
use bads_rows::{bad_number, bad_tag, past_heads};
use lists::{heads_from, heads_to, word};
use model::{OTHER_HEADS, Sizes, TAG_HEAD};
use sets::holds;
use system_letters::letter_width;

// Counters that stand together: those from `from` below `to`.
#[derive(Clone, Copy)]
pub struct Stretch {
    pub from: usize,
    pub to: usize,
}

// The counters of the states of class c at row r, whatever they return to.
fn head_counters(ws: &[u16], s: Sizes, c: usize, r: usize) -> Stretch
    requires ready { Ready ws.now s }
    requires r_bound { r < 65536 }
    ensures from_value { result.from ≡ head_from (tables ws.now s) c r }
    ensures to_value { result.to ≡ head_to (tables ws.now s) c r }
{
    let from = heads_from(ws, s, c, r);
    let to = heads_to(ws, s, c, r);
    Stretch { from, to }
}

// Digit i of letter y is the number of row r of the bads; no letter has a digit that is no head.
fn is_digit(ws: &[u16], s: Sizes, letters: &[u64], w: usize, i: usize, r: usize, y: usize) -> bool
    requires sets_filled { SetsFilled ws.now s letters.now w }
    requires i_lt_digits { (i < digits) × (y < letter_count_of (program ws.now s) (tables ws.now s)) }
    ensures { result ≡ eqb (get_or (letter_at_of (program ws.now s) (tables ws.now s) y) i 0)
        (right (bad_rows ws.now s) r) }
{
    let heads = s.constructors + OTHER_HEADS;
    let h = bad_number(ws, s, r);
    if h >= heads {
        return false;
    }
    let set = i * heads + h;
    holds(letters, w, set, y)
}

// The numbers of the rows from..to of the bads are the number of letter y and its heads from the left.
fn is_named(
    ws: &[u16],
    s: Sizes,
    letters: &[u64],
    w: usize,
    from: usize,
    to: usize,
    y: usize,
) -> bool
    requires sets_filled { SetsFilled ws.now s letters.now w }
    requires to_bound { (to ≤ from + digits) × (y < letter_count_of (program ws.now s) (tables ws.now s)) }
    ensures { result ≡ is_named_of (program ws.now s) (tables ws.now s)
        (bad_rows ws.now s) from to y }
{
    for r in from..to {
        if !is_digit(ws, s, letters, w, r - from, r, y) {
            return false;
        }
    }
    true
}

// Behind the number of row `from` stand no heads, or one for each argument of its letters.
fn names_letters(ws: &[u16], s: Sizes, from: usize, to: usize) -> bool
    requires ready { Ready ws.now s }
    requires from_le_badrows { from ≤ s.badrows }
    ensures { result ≡ names_letters_of (program ws.now s) (bad_rows ws.now s) from to }
{
    let number = bad_number(ws, s, from);
    let heads = letter_arity(ws, s, number);
    to == from + 1 || to == from + 1 + heads
}

// The letters of class c that the rows from..to of the bads name. Those of one number stand together.
fn letters_named(
    ws: &[u16],
    s: Sizes,
    letter_at: &[u16],
    letters: &[u64],
    c: usize,
    from: usize,
    to: usize,
) -> Stretch
    requires letters_filled { LettersFilled ws.now s letter_at.now letters.now }
    requires c_le_rows { (c ≤ s.rows) × (names_letters_of (program ws.now s) (bad_rows ws.now s) from to ≡ true) }
    ensures stretched { Stretched
        (is_named_of (program ws.now s) (tables ws.now s) (bad_rows ws.now s) from to)
        (letters_before (program ws.now s) (tables ws.now s) c)
        (letters_before (program ws.now s) (tables ws.now s) (c + 1)) result.from result.to }
    ensures to_bound { result.to < 65536 }
{
    let w = letter_width(ws, s, letter_at);
    let low = word(letter_at, c);
    let high = word(letter_at, c + 1);
    let mut first = 0;
    let mut end = 0;
    for y in low..high {
        if is_named(ws, s, letters, w, from, to, y) {
            if first == end {
                first = y;
            }
            end = y + 1;
        }
    }
    Stretch {
        from: first,
        to: end,
    }
}

// The counters of the item at row r of the bads, where it counts letters. No letter has a class above R.
fn letter_counters(ws: &[u16], s: Sizes, letter_at: &[u16], letters: &[u64], r: usize) -> Stretch
    requires letters_filled { LettersFilled ws.now s letter_at.now letters.now }
    requires r_lt_badrows { (r < s.badrows) × (left (bad_rows ws.now s) (r + 1) ≡ 41 → ⊥) }
    ensures { Range (program ws.now s) (tables ws.now s)
        (subject_from (bad_rows ws.now s) r) result.from result.to }
{
    let class = bad_number(ws, s, r);
    if class > s.rows {
        return Stretch { from: 0, to: 0 };
    }
    let number = r + 1;
    let minimum = past_heads(ws, s, r + 2);
    if !names_letters(ws, s, number, minimum) {
        return Stretch { from: 0, to: 0 };
    }
    let named = letters_named(ws, s, letter_at, letters, class, number, minimum);
    let from = s.states + named.from;
    let to = s.states + named.to;
    Stretch { from, to }
}

// The counters of the item at row r of the bads, whether or not one stands there.
fn item_counters(ws: &[u16], s: Sizes, letter_at: &[u16], letters: &[u64], r: usize) -> Stretch
    requires letters_filled { LettersFilled ws.now s letter_at.now letters.now }
    requires r_lt_badrows { r < s.badrows }
    ensures { Range (program ws.now s) (tables ws.now s)
        (subject_from (bad_rows ws.now s) r) result.from result.to }
{
    if bad_tag(ws, s, r + 1) == TAG_HEAD {
        let class = bad_number(ws, s, r);
        let row = bad_number(ws, s, r + 1);
        return head_counters(ws, s, class, row);
    }
    letter_counters(ws, s, letter_at, letters, r)
}

// The counters of each item, at the item's first row.
pub fn fill_items(
    ws: &[u16],
    s: Sizes,
    letter_at: &[u16],
    letters: &[u64],
    froms: &mut [u16],
    tos: &mut [u16],
)
    requires letters_filled { LettersFilled ws.now s letter_at.now letters.now }
    requires items_room { ItemsRoom ws.now s froms.old tos.old }
    ensures { ItemsCounted (program ws.now s) (tables ws.now s)
        (bad_rows ws.now s) froms.new tos.new }
{
    for r in 0..s.badrows {
        let own = item_counters(ws, s, letter_at, letters, r);
        froms[r] = own.from as u16;
        tos[r] = own.to as u16;
    }
}
