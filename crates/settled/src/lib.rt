// What a head asks whatever the state.
#![tactic(auto)]

ghost use Rattle.std.specs.Prelude.{◌≡◌, ◌⊎◌};
ghost use Rattle.model.specs.Rows.{program, tag, num};
ghost use Rattle.model.specs.Tables.{tables, has};
ghost use Rattle.values.specs.Values.{FlowReady};
ghost use Rattle.asks.specs.Asks.{there_code};
ghost use Rattle.settled.specs.Settled.{ClosureReady, Settled};

use asks::asked;
use branches::taken_bits;
use model::{Sizes, TAG_BUILD, TAG_CALL, TAG_CASE, TAG_FUNCTION, TAG_SEND, TAG_SPAWN};
use program::rows::{num, tag};
use sets::holds;
use values::width;

// Whether the name bound at row r holds that row: 1 where it does, 2 where it lacks.
fn named_code(ws: &[u16], s: Sizes, flow: &[u64], r: usize) -> usize
    requires flow_ready { FlowReady ws.now s flow.now }
    requires fact { (tag (program ws.now s) r ≡ 2) ⊎ (tag (program ws.now s) r ≡ 3) }
    ensures { result ≡ there_code (has (tables ws.now s).flow (num (program ws.now s) r) r) }
{
    let name = num(ws, s, r);
    if holds(flow, width(s), name, r) { 1 } else { 2 }
}

// What the head at row r asks.
pub fn settle(
    ws: &[u16],
    s: Sizes,
    afters: &[u16],
    starts: &[u16],
    flow: &[u64],
    mail: &[u64],
    may: &[u64],
    held: &[u64],
    r: usize,
) -> usize
    requires { ClosureReady ws.now s afters.now starts.now flow.now mail.now may.now held.now }
    ensures { Settled (program ws.now s) (tables ws.now s) r result }
{
    match tag(ws, s, r) {
        TAG_BUILD | TAG_FUNCTION => named_code(ws, s, flow, r),
        TAG_CALL | TAG_SEND | TAG_SPAWN => asked(ws, s, starts, flow, mail, r),
        TAG_CASE => {
            let name = num(ws, s, r);
            let count = num(ws, s, r + 1);
            taken_bits(ws, s, afters, flow, may, held, flow, name, r + 2, count)
        }
        _ => 0,
    }
}
