// Readers of what holds no expression: lists of rows, and patterns.
ghost use Rattle.std.specs.Prelude.{◌≡◌, true, [], ◌∷◌, ◌≤◌, replicate};
ghost use Rattle.model.specs.Rows.{program, constructor, made, operand, arguments, pattern};
ghost use Rattle.program.specs.Rows.{Whole, reading, from, listed, listed_item, counted_items};

use crate::rows::{is_row, is_small_row, num, tag};
use model::{
    Sizes, TAG_CONSTRUCTOR, TAG_COUNT, TAG_MADE, TAG_OPERAND, TAG_PATTERN_ANY,
    TAG_PATTERN_CONSTRUCTOR, TAG_PATTERN_HELD, TAG_PATTERN_NAME,
};

// The first row that does not fit. A reader gives it, or the row past what it read.
#[derive(Clone, Copy, Debug, PartialEq, Eq)]
pub struct WrongRow(pub usize);

// The rows (10, arity) of the constructors.
pub fn constructors(ws: &[u16], s: Sizes) -> Result<usize, WrongRow>
    requires { Whole ws.now s }
    ensures { reading result ≡ from (program ws.now s) (replicate s.constructors constructor) 0 }
{
    for r in 0..s.constructors {
        if !is_small_row(ws, s, r, TAG_CONSTRUCTOR) {
            return Err(WrongRow(r));
        }
    }
    Ok(s.constructors)
}

// n rows with the tag t and a name each.
pub fn names(ws: &[u16], s: Sizes, r: usize, n: usize, t: usize) -> Result<usize, WrongRow>
    requires whole { Whole ws.now s }
    requires r_le_rows { (r ≤ s.rows) × (listed t ≡ true) }
    ensures { reading result ≡ from (program ws.now s) (replicate n (listed_item t)) r }
{
    // The contract bounds no n, so r + n may be no number, and r..r + n no range.
    let mut q = r;
    for _ in 0..n {
        if !is_row(ws, s, q, t, s.names) {
            return Err(WrongRow(q));
        }
        q += 1;
    }
    Ok(q)
}

// (22, count), and that many rows with the tag t and a name each.
pub fn counted(ws: &[u16], s: Sizes, r: usize, t: usize) -> Result<usize, WrongRow>
    requires whole { Whole ws.now s }
    requires r_le_rows { (r ≤ s.rows) × (listed t ≡ true) }
    ensures { reading result ≡ from (program ws.now s) (counted_items t ∷ []) r }
{
    if !is_small_row(ws, s, r, TAG_COUNT) {
        return Err(WrongRow(r));
    }
    let n = num(ws, s, r);
    names(ws, s, r + 1, n, t)
}

// (20, constructor), and its arity of rows (21, name read).
pub fn made(ws: &[u16], s: Sizes, r: usize) -> Result<usize, WrongRow>
    requires whole { Whole ws.now s }
    requires r_le_rows { r ≤ s.rows }
    ensures { reading result ≡ from (program ws.now s) (made ∷ []) r }
{
    if !is_row(ws, s, r, TAG_MADE, s.constructors) {
        return Err(WrongRow(r));
    }
    let k = num(ws, s, r);
    let n = num(ws, s, k);
    names(ws, s, r + 1, n, TAG_OPERAND)
}

// (21, function name), (22, count) and that many (21, name read): what follows the head of a call.
pub fn call_parts(ws: &[u16], s: Sizes, r: usize) -> Result<usize, WrongRow>
    requires whole { Whole ws.now s }
    requires r_le_rows { r ≤ s.rows }
    ensures { reading result ≡ from (program ws.now s) (operand ∷ arguments ∷ []) r }
{
    let count = names(ws, s, r, 1, TAG_OPERAND)?;
    counted(ws, s, count, TAG_OPERAND)
}

// A pattern that may be d levels deep.
#[cycle(pattern_patterns)]
pub fn pattern(ws: &[u16], s: Sizes, r: usize, d: usize) -> Result<usize, WrongRow>
    requires whole { Whole ws.now s }
    requires r_le_rows { r ≤ s.rows }
    ensures { reading result ≡ from (program ws.now s) (pattern d ∷ []) r }
{
    if d == 0 {
        return Err(WrongRow(r));
    }
    let n = num(ws, s, r);
    let next = r + 1;
    match tag(ws, s, r) {
        TAG_PATTERN_NAME | TAG_PATTERN_HELD => if n < s.names {
            Ok(next)
        } else {
            Err(WrongRow(r))
        },
        TAG_PATTERN_CONSTRUCTOR => if n < s.constructors {
            patterns(ws, s, next, num(ws, s, n), d - 1)
        } else {
            Err(WrongRow(r))
        },
        TAG_PATTERN_ANY => if n == 0 { Ok(next) } else { Err(WrongRow(r)) },
        _ => Err(WrongRow(r)),
    }
}

// n patterns that may be d levels deep each.
#[cycle(pattern_patterns)]
fn patterns(ws: &[u16], s: Sizes, r: usize, n: usize, d: usize) -> Result<usize, WrongRow>
    requires whole { Whole ws.now s }
    requires r_le_rows { r ≤ s.rows }
    ensures { reading result ≡ from (program ws.now s) (replicate n (pattern d)) r }
{
    let mut q = r;
    for _ in 0..n {
        q = pattern(ws, s, q, d)?;
    }
    Ok(q)
}
