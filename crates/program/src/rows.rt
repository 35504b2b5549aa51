// The rows of a program, as the words of the message have them.
ghost use Rattle.std.specs.Prelude.{◌≡◌, ◌&&◌, ◌||◌, ◌+◌, ◌≤◌, length, get_or, take, drop, eqb, ltb, leb};
ghost use Rattle.model.specs.Rows.{program, tag, num};
ghost use Rattle.model.specs.Limits.{max_arity};
ghost use Rattle.model.specs.Heads.{is_class_of};
ghost use Rattle.program.specs.Rows.{Whole};

use model::{MAX_ARITY, Sizes, TAG_FUNCTION, TAG_GLOBAL, TAG_SPAWN};

// Word i of the n words that stand from `at`, and 0 past them.
pub fn cell(ws: &[u16], n: usize, at: usize, i: usize) -> u16
    requires { at + n ≤ length ws.now }
    ensures { result ≡ get_or (take n (drop at ws.now)) i 0 }
{
    if i < n { ws[at + i] } else { 0 }
}

// The same as a number.
pub fn column(ws: &[u16], n: usize, at: usize, i: usize) -> usize
    requires { at + n ≤ length ws.now }
    ensures { result ≡ get_or (take n (drop at ws.now)) i 0 }
{
    cell(ws, n, at, i) as usize
}

// The tag of a row, and 0 past the last row.
pub fn tag(ws: &[u16], s: Sizes, r: usize) -> usize
    requires { Whole ws.now s }
    ensures { result ≡ tag (program ws.now s) r }
{
    column(ws, s.rows, 4, r)
}

// The number of a row, and 0 past the last row.
pub fn num(ws: &[u16], s: Sizes, r: usize) -> usize
    requires { Whole ws.now s }
    ensures { result ≡ num (program ws.now s) r }
{
    column(ws, s.rows, 4 + s.rows, r)
}

// A function is a row with tag 3 or 11.
pub fn is_function(t: usize) -> bool
    ensures { result ≡ (eqb t 3 || eqb t 11) }
{
    t == TAG_FUNCTION || t == TAG_GLOBAL
}

// A class is a spawn row, or R for the starting process.
pub fn is_class(ws: &[u16], s: Sizes, c: usize) -> bool
    requires { Whole ws.now s }
    ensures { result ≡ is_class_of (program ws.now s) c }
{
    tag(ws, s, c) == TAG_SPAWN || c == s.rows
}

// Row r has the tag t, and a number below the limit.
pub fn is_row(ws: &[u16], s: Sizes, r: usize, t: usize, limit: usize) -> bool
    requires { Whole ws.now s }
    ensures { result ≡
        (eqb (tag (program ws.now s) r) t && ltb (num (program ws.now s) r) limit) }
{
    tag(ws, s, r) == t && num(ws, s, r) < limit
}

// Row r has the tag t, and its number is an arity, or a count of parameters or arguments.
pub fn is_small_row(ws: &[u16], s: Sizes, r: usize, t: usize) -> bool
    requires { Whole ws.now s }
    ensures { result ≡
        (eqb (tag (program ws.now s) r) t && leb (num (program ws.now s) r) max_arity) }
{
    tag(ws, s, r) == t && num(ws, s, r) <= MAX_ARITY
}
