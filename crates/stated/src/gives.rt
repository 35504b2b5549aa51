// Giving back: for each state that waits at the call which the state returns to, the call's name holds the values, and
// it goes on at the call's rest.
ghost use Rattle.std.specs.Prelude.{◌≡◌, ◌≤◌, ◌<◌};
ghost use Rattle.model.specs.Index.{all};
ghost use Rattle.model.specs.Rows.{program, tag, num};
ghost use Rattle.model.specs.Tables.{tables, state_at};
ghost use Rattle.model.specs.Closed.{is_give_closed};
ghost use Rattle.lists.specs.Ready.{Ready};
ghost use Rattle.values.specs.Values.{FlowReady};
ghost use Rattle.stated.specs.Stated.{goes_on};

use asks::includes;
use lists::{heads_from, heads_to, state_class, state_return};
use model::Sizes;
use onward::onward;
use program::rows::num;

// Whether each of the states from `from` up to `to` goes on at row r.
fn go_on(ws: &[u16], s: Sizes, at: &[u16], from: usize, to: usize, r: usize) -> bool
    requires ready { Ready ws.now s }
    requires to_le_states { to ≤ s.states }
    ensures { result ≡ all from to (goes_on (tables ws.now s) r) }
{
    for j in from..to {
        if onward(ws, s, at, j, r) >= s.states {
            return false;
        }
    }
    true
}

// Whether all that state i, whose head at row r gives back, asks for is there.
pub fn give_closed(ws: &[u16], s: Sizes, flow: &[u64], at: &[u16], i: usize, r: usize) -> bool
    requires flow_ready { FlowReady ws.now s flow.now }
    requires i_lt_states { (i < s.states) × (tag (program ws.now s) r ≡ 1) }
    ensures { result ≡
        is_give_closed (program ws.now s) (tables ws.now s)
        (state_at (tables ws.now s) i) (num (program ws.now s) r) }
{
    let call = state_return(ws, s, i);
    if call == s.rows {
        return true;
    }
    let c = state_class(ws, s, i);
    let from = heads_from(ws, s, c, call);
    let to = heads_to(ws, s, c, call);
    if from >= to {
        return true;
    }
    let given = num(ws, s, r);
    let name = num(ws, s, call);
    if !includes(ws, s, flow, given, name) {
        return false;
    }
    let next = call + 3 + num(ws, s, call + 2);
    go_on(ws, s, at, from, to, next)
}
