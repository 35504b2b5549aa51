// Where the parts of a head stand.
#![tactic(auto)]

ghost use Rattle.std.specs.Prelude.{◌≡◌, true, ◌+◌, ◌<◌};
ghost use Rattle.model.specs.Words.{left, right};
ghost use Rattle.model.specs.Rows.{program, tag, is_head_of};
ghost use Rattle.model.specs.Scopes.{rest};
ghost use Rattle.model.specs.Heads.{is_function, body, takes, branch_body_of};
ghost use Rattle.model.specs.Tables.{tables};
ghost use Rattle.program.specs.Rows.{Whole};
ghost use Rattle.lists.specs.Ready.{Ready};
ghost use Rattle.layout.specs.Tables.{Ends};
ghost use Rattle.positions.specs.Positions.{branch_row, Run};

use layout::ends::rest_of;
use lists::word;
use model::{Sizes, TAG_FUNCTION, TAG_GLOBAL};
use program::rows::{num, tag};

// Is row f a function that takes n arguments?
pub fn takes(ws: &[u16], s: Sizes, f: usize, n: usize) -> bool
    requires { Whole ws.now s }
    ensures { result ≡ takes (program ws.now s) f n }
{
    match tag(ws, s, f) {
        TAG_FUNCTION | TAG_GLOBAL => num(ws, s, f + 1) == n,
        _ => false,
    }
}

// The body of the function at row f.
pub fn body(ws: &[u16], s: Sizes, f: usize) -> usize
    requires ready { Ready ws.now s }
    requires f_value { is_function (program ws.now s) f ≡ true }
    ensures { result ≡ body (program ws.now s) f }
{
    f + 2 + num(ws, s, f + 1)
}

// The rest of the head at row r.
pub fn rest(ws: &[u16], s: Sizes, afters: &[u16], r: usize) -> usize
    requires ready { Ready ws.now s }
    requires ends { Ends (program ws.now s) afters.now }
    requires r_value { is_head_of (tag (program ws.now s) r) ≡ true }
    ensures { result ≡ rest (program ws.now s) r }
{
    rest_of(ws, s, afters, r)
}

// The expression of the branch whose pattern stands at row q.
pub fn branch_body(ws: &[u16], s: Sizes, afters: &[u16], q: usize) -> usize
    requires ends { Ends (program ws.now s) afters.now }
    requires run { Run (program ws.now s) q 1 }
    ensures { result ≡ branch_body_of (program ws.now s) q }
{
    word(afters, q)
}

// The pattern row of branch j, of those that stand from row q.
pub fn branch_row(ws: &[u16], s: Sizes, afters: &[u16], q: usize, j: usize) -> usize
    requires ends { Ends (program ws.now s) afters.now }
    requires run { Run (program ws.now s) q (j + 1) }
    ensures { result ≡ branch_row (program ws.now s) q j }
{
    let mut row = q;
    for _ in 0..j {
        let expression = branch_body(ws, s, afters, row);
        row = word(afters, expression);
    }
    row
}
