// A call: it enters the functions that the callee may be.
ghost use Rattle.std.specs.Prelude.{◌≡◌, ◌+◌};
ghost use Rattle.model.specs.Index.{implies};
ghost use Rattle.model.specs.Rows.{program, tag};
ghost use Rattle.model.specs.Heads.{takes};
ghost use Rattle.model.specs.Tables.{tables, state_at, has_state};
ghost use Rattle.model.specs.Closed.{entered};
ghost use Rattle.lists.specs.Ready.{Ready};
ghost use Rattle.asks.specs.Asks.{StartsReady};
ghost use Rattle.stated.specs.Stated.{callees_of};

use lists::{flow_value, word};
use model::Sizes;
use onward::called;
use positions::{body, takes};
use program::rows::num;

// Where f takes so many arguments, whether state i enters its body.
fn callee_here(ws: &[u16], s: Sizes, at: &[u16], i: usize, f: usize, count: usize) -> bool
    requires { Ready ws.now s }
    ensures { result ≡
        implies (takes (program ws.now s) f count)
        (has_state (tables ws.now s)
        (entered (program ws.now s) (state_at (tables ws.now s) i) f)) }
{
    if takes(ws, s, f, count) {
        let first = body(ws, s, f);
        called(ws, s, at, i, first) < s.states
    } else {
        true
    }
}

// Whether state i enters all these bodies, where its head is the call at row r.
pub fn callees_here(ws: &[u16], s: Sizes, starts: &[u16], at: &[u16], i: usize, r: usize) -> bool
    requires starts_ready { StartsReady ws.now s starts.now }
    requires r_value { tag (program ws.now s) r ≡ 4 }
    ensures { result ≡
        callees_of (program ws.now s) (tables ws.now s)
        (state_at (tables ws.now s) i) r }
{
    let callee = num(ws, s, r + 1);
    let count = num(ws, s, r + 2);
    let from = word(starts, callee);
    let to = word(starts, callee + 1);
    for j in from..to {
        let f = flow_value(ws, s, j);
        if !callee_here(ws, s, at, i, f, count) {
            return false;
        }
    }
    true
}
