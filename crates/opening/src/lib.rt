// The opening entries: each tag 11 name holds its own row, and the start expression is a state of the starting
// process, with nothing pushed.
#![tactic(auto)]

ghost use Rattle.std.specs.Prelude.{◌≡◌};
ghost use Rattle.model.specs.Rows.{program};
ghost use Rattle.model.specs.Heads.{start};
ghost use Rattle.model.specs.Tables.{tables};
ghost use Rattle.model.specs.Closed.{is_opening_closed};
ghost use Rattle.lists.specs.Ready.{Ready};
ghost use Rattle.layout.specs.Tables.{Ends};
ghost use Rattle.opening.specs.Opening.{opening_row_of};

use lists::{has_flow, state_index, word};
use model::{Sizes, TAG_GLOBAL};
use positions::body;
use program::rows::{num, tag};

// The row of the start expression: behind the constructors and the functions.
pub fn start(ws: &[u16], s: Sizes, afters: &[u16]) -> usize
    requires ready { Ready ws.now s }
    requires ends { Ends (program ws.now s) afters.now }
    ensures { result ≡ start (program ws.now s) }
{
    let mut q = s.constructors;
    for _ in 0..s.functions {
        let first = body(ws, s, q);
        q = word(afters, first);
    }
    q
}

// What is asked of row r.
fn opening_row(ws: &[u16], s: Sizes, r: usize) -> bool
    requires { Ready ws.now s }
    ensures { result ≡ opening_row_of (program ws.now s) (tables ws.now s) r }
{
    if tag(ws, s, r) != TAG_GLOBAL {
        return true;
    }
    let n = num(ws, s, r);
    has_flow(ws, s, n, r)
}

// Whether the opening entries are there.
pub fn opening_closed(ws: &[u16], s: Sizes, afters: &[u16]) -> bool
    requires ready { Ready ws.now s }
    requires ends { Ends (program ws.now s) afters.now }
    ensures { result ≡ is_opening_closed (program ws.now s) (tables ws.now s) }
{
    for r in 0..s.rows {
        if !opening_row(ws, s, r) {
            return false;
        }
    }
    let first = start(ws, s, afters);
    state_index(ws, s, s.rows, first, s.rows) < s.states
}
