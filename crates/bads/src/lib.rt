// Refusal 6: the rows of bads are in form, name classes, heads and letters of the program, and are B bads.
#![tactic(auto)]

ghost use Rattle.std.specs.Prelude.{◌≡◌, ◌+◌, ◌≤◌, ltb};
ghost use Rattle.model.specs.Limits.{max_constructors};
ghost use Rattle.model.specs.Rows.{program};
ghost use Rattle.model.specs.Bads.{letter_arity_of, bad_step, bad_check_of};
ghost use Rattle.model.specs.Verify.{outcome};
ghost use Rattle.program.specs.Rows.{Whole};
ghost use Rattle.evidence.specs.Whole.{PartsWhole};
ghost use Rattle.bads.specs.Reading.{row_step};
ghost use Rattle.bads.specs.declared.Expected.TheVariants.{Subject, Detail};
ghost use Rattle.bads.specs.Stacks.{stack, stacks, item_step, no_more};

use evidence::ranges::is_head;
use model::{
    OTHER_HEADS, Sizes, TAG_ARGUMENT, TAG_BAD_END, TAG_CLASS, TAG_HEAD, TAG_LETTER, TAG_MINIMUM,
    Verdict,
};
use program::rows::{column, is_class, num};

// What the next row is to be, and how many bads begin behind it.
#[derive(Clone, Copy)]
pub enum Expected {
    // the first item of a bad, of which there are so many
    Bads(usize),
    // (41, head) or (42, letter)
    Subject(usize),
    // (43, minimum), before which so many (45, head) may stand, all or none
    Minimum(usize, usize),
    // so many (45, head), then the minimum
    Detail(usize, usize),
    // another item, or the end of the bad
    Further(usize),
}

// A head, and the number of a letter: of a constructor, or one of those behind them.
fn is_number(s: Sizes, n: usize) -> bool
    requires { s.constructors ≤ max_constructors }
    ensures { result ≡ ltb n (s.constructors + 2) }
{
    n < s.constructors + OTHER_HEADS
}

// How many heads a letter of number k has: those that are no constructor's have none.
pub fn letter_arity(ws: &[u16], s: Sizes, k: usize) -> usize
    requires { Whole ws.now s }
    ensures { result ≡ letter_arity_of (program ws.now s) k }
{
    if k < s.constructors { num(ws, s, k) } else { 0 }
}

// The head or the letter that an item counts; k bads begin behind the item. None where the row fits nothing, here
// and below.
fn subject(ws: &[u16], s: Sizes, k: usize, t: usize, n: usize) -> Option<Expected>
    requires { Whole ws.now s }
    ensures { stacks result ≡ row_step (bad_step (program ws.now s)) (stack (Subject k)) t n }
{
    match t {
        TAG_HEAD => {
            if is_head(ws, s, n) {
                Some(Expected::Minimum(0, k))
            } else {
                None
            }
        }
        TAG_LETTER => {
            if is_number(s, n) {
                Some(Expected::Minimum(letter_arity(ws, s, n), k))
            } else {
                None
            }
        }
        _ => None,
    }
}

// One of `heads` heads, or, where there are none, the minimum; k bads begin behind the item.
fn detail(ws: &[u16], s: Sizes, heads: usize, k: usize, t: usize, n: usize) -> Option<Expected>
    requires { Whole ws.now s }
    ensures { stacks result ≡ row_step (bad_step (program ws.now s)) (stack (Detail heads k)) t n }
{
    if heads == 0 {
        if t == TAG_MINIMUM && 1 <= n {
            return Some(Expected::Further(k));
        }
        return None;
    }
    if t == TAG_ARGUMENT && is_number(s, n) {
        return Some(Expected::Detail(heads - 1, k));
    }
    None
}

// The class that an item begins with; k bads begin behind it.
fn item(ws: &[u16], s: Sizes, k: usize, t: usize, n: usize) -> Option<Expected>
    requires { Whole ws.now s }
    ensures { stacks result ≡ item_step (program ws.now s) k t n }
{
    if t == TAG_CLASS && is_class(ws, s, n) {
        Some(Expected::Subject(k))
    } else {
        None
    }
}

// One row, with its tag and number.
fn read_row(ws: &[u16], s: Sizes, expected: Expected, t: usize, n: usize) -> Option<Expected>
    requires { Whole ws.now s }
    ensures { stacks result ≡ row_step (bad_step (program ws.now s)) (stack expected) t n }
{
    match expected {
        Expected::Bads(k) => {
            if k == 0 {
                return None;
            }
            item(ws, s, k - 1, t, n)
        }
        Expected::Subject(k) => subject(ws, s, k, t, n),
        Expected::Minimum(heads, k) => {
            if t == TAG_ARGUMENT {
                return detail(ws, s, heads, k, t, n);
            }
            detail(ws, s, 0, k, t, n)
        }
        Expected::Detail(heads, k) => detail(ws, s, heads, k, t, n),
        Expected::Further(k) => {
            if t != TAG_BAD_END {
                return item(ws, s, k, t, n);
            }
            if n == 0 {
                return Some(Expected::Bads(k));
            }
            None
        }
    }
}

// Every bad has been read to its end.
fn is_done(expected: Expected) -> bool
    ensures { result ≡ no_more (stack expected) }
{
    match expected {
        Expected::Bads(k) => k == 0,
        Expected::Subject(_) => false,
        Expected::Minimum(_, _) => false,
        Expected::Detail(_, _) => false,
        Expected::Further(_) => false,
    }
}

// The verdict of refusal 6.
pub fn bad_check(ws: &[u16], s: Sizes) -> Result<(), Verdict>
    requires { PartsWhole ws.now s }
    ensures { result ≡ outcome (bad_check_of ws.now s (program ws.now s)) }
{
    let tags = 6 + 2 * s.rows;
    let numbers = tags + s.badrows;
    let mut expected = Expected::Bads(s.bads);
    for r in 0..s.badrows {
        let t = column(ws, s.badrows, tags, r);
        let n = column(ws, s.badrows, numbers, r);
        let Some(next) = read_row(ws, s, expected, t, n) else {
            return Err(Verdict::Bad(tags + r));
        };
        expected = next;
    }
    if is_done(expected) {
        Ok(())
    } else {
        Err(Verdict::Bad(tags + s.badrows))
    }
}
