// Where expressions and patterns end: one table, filled from the last row to the first.
ghost use Rattle.std.specs.Prelude.{◌≡◌, ◌+◌, ◌≤◌, ◌<◌, length};
ghost use Rattle.model.specs.Rows.{program};
ghost use Rattle.model.specs.Scopes.{rest};
ghost use Rattle.program.specs.Rows.{Whole, Fitted};
ghost use Rattle.layout.specs.Tables.{AfterFrom, Ends, EndsAt, RestAt, hop};

use crate::tables::entry;
use model::{
    Sizes, TAG_BUILD, TAG_CALL, TAG_CASE, TAG_FUNCTION, TAG_PATTERN_CONSTRUCTOR, TAG_RECEIVE,
    TAG_SELF, TAG_SEND, TAG_SPAWN,
};
use program::rows::{num, tag};

// n steps by the table, from row q.
fn hops(afters: &[u16], q: usize, n: usize) -> usize
    ensures { result ≡ hop afters.now n q }
{
    let mut at = q;
    for _ in 0..n {
        at = entry(afters, at);
    }
    at
}

// The rest of the expression at row r, by the table of the rows behind it.
fn rest_row(ws: &[u16], s: Sizes, afters: &[u16], r: usize) -> usize
    requires whole { Whole ws.now s }
    requires r_lt_rows { r < s.rows }
    requires after_from { AfterFrom (program ws.now s) (r + 1) afters.now }
    ensures { RestAt (program ws.now s) r result }
{
    let next = r + 1;
    let second = r + 2;
    let third = r + 3;
    match tag(ws, s, r) {
        TAG_BUILD => {
            let k = num(ws, s, next);
            let n = num(ws, s, k);
            second + n
        }
        TAG_FUNCTION => {
            let n = num(ws, s, next);
            let body = second + n;
            entry(afters, body)
        }
        TAG_CALL => {
            let n = num(ws, s, second);
            third + n
        }
        TAG_SEND => third,
        TAG_SPAWN => second,
        _ => next,
    }
}

// The row after the expression or pattern at row r, by the table of the rows behind it.
fn end_row(ws: &[u16], s: Sizes, afters: &[u16], r: usize) -> usize
    requires whole { Whole ws.now s }
    requires r_lt_rows { r < s.rows }
    requires after_from { AfterFrom (program ws.now s) (r + 1) afters.now }
    ensures { EndsAt (program ws.now s) r result }
{
    let next = r + 1;
    let n = num(ws, s, r);
    match tag(ws, s, r) {
        TAG_BUILD..=TAG_SELF => {
            let rest = rest_row(ws, s, afters, r);
            entry(afters, rest)
        }
        TAG_CASE => {
            let count = num(ws, s, next);
            let first = r + 2;
            hops(afters, first, 2 * count)
        }
        TAG_RECEIVE => hops(afters, next, 2 * n),
        TAG_PATTERN_CONSTRUCTOR => {
            let arity = num(ws, s, n);
            hops(afters, next, arity)
        }
        _ => next,
    }
}

// For each row where an expression or a pattern stands, the row after it.
pub fn fill_ends(ws: &[u16], s: Sizes, afters: &mut [u16])
    requires whole { Whole ws.now s }
    requires rows_in_bounds { s.rows ≤ length afters.old }
    ensures { Ends (program ws.now s) afters.new }
{
    for r in (0..s.rows).rev() {
        let end = end_row(ws, s, afters, r);
        if end <= s.rows {
            afters[r] = end as u16;
        }
    }
}

// The rest of the expression at row r of a program that fits, by the whole table.
pub fn rest_of(ws: &[u16], s: Sizes, afters: &[u16], r: usize) -> usize
    requires fitted { Fitted ws.now s }
    requires ends { Ends (program ws.now s) afters.now × (r < s.rows) }
    ensures { result ≡ rest (program ws.now s) r }
{
    rest_row(ws, s, afters, r)
}
