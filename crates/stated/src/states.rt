// One state, by its head.
ghost use Rattle.std.specs.Prelude.{◌≡◌, ◌&&◌, ◌≤◌, ◌<◌};
ghost use Rattle.model.specs.Rows.{program, tag, num};
ghost use Rattle.model.specs.Scopes.{rest};
ghost use Rattle.model.specs.Heads.{call_at, branch_rows};
ghost use Rattle.model.specs.Tables.{tables, has, onward, state_at, has_state};
ghost use Rattle.model.specs.Closed.{is_call_closed};
ghost use Rattle.positions.specs.Positions.{Run};
ghost use Rattle.values.specs.Values.{FlowSets};
ghost use Rattle.branches.specs.Taken.{code_closed, LayoutReady};
ghost use Rattle.asks.specs.Asks.{StartsReady, Asked};
ghost use Rattle.settled.specs.Settled.{ClosureReady};
ghost use Rattle.stated.specs.Stated.{Here, Flagged, StateAsked, Stated};

use crate::calls::callees_here;
use crate::gives::give_closed;
use branches::{LACKS, bodies_closed, taken_bits};
use lists::state_class;
use model::{Sizes, TAG_CALL, TAG_CASE, TAG_GIVE, TAG_RECEIVE, TAG_SELF};
use onward::onward;
use positions::rest;
use program::rows::{num, tag};
use sets::holds;
use values::{mail_set, width};

// What the head at row r with this code asks in state i: nothing, to go on at its rest, or something lacks.
fn rest_closed(
    ws: &[u16],
    s: Sizes,
    afters: &[u16],
    at: &[u16],
    i: usize,
    r: usize,
    k: usize,
) -> bool
    requires layout_ready { LayoutReady ws.now s afters.now }
    requires i_lt_states { (i < s.states) × ((2 ≤ tag (program ws.now s) r) × (tag (program ws.now s) r ≤ 7)) }
    ensures { result ≡
        code_closed k (has_state (tables ws.now s)
        (onward (state_at (tables ws.now s) i) (rest (program ws.now s) r))) }
{
    if k == 0 {
        return true;
    }
    if k != 1 {
        return false;
    }
    let next = rest(ws, s, afters, r);
    onward(ws, s, at, i, next) < s.states
}

// What the call at row r with this code asks in state i.
fn call_closed(
    ws: &[u16],
    s: Sizes,
    starts: &[u16],
    at: &[u16],
    i: usize,
    r: usize,
    k: usize,
) -> bool
    requires starts_ready { StartsReady ws.now s starts.now }
    requires r_value { (tag (program ws.now s) r ≡ 4) × Asked (program ws.now s) (tables ws.now s) r k }
    ensures { result ≡
        is_call_closed (program ws.now s) (tables ws.now s)
        (state_at (tables ws.now s) i) (call_at (program ws.now s) r) }
{
    if k >= 2 {
        return false;
    }
    callees_here(ws, s, starts, at, i, r)
}

// What self at row r asks in state i.
fn self_closed(
    ws: &[u16],
    s: Sizes,
    afters: &[u16],
    flow: &[u64],
    at: &[u16],
    i: usize,
    r: usize,
) -> bool
    requires layout_ready { LayoutReady ws.now s afters.now }
    requires flow_sets { FlowSets (program ws.now s) (tables ws.now s) flow.now
        × ((i < s.states) × (tag (program ws.now s) r ≡ 7)) }
    ensures { result ≡
        (has (tables ws.now s).flow (num (program ws.now s) r)
        (state_at (tables ws.now s) i).class &&
        has_state (tables ws.now s)
        (onward (state_at (tables ws.now s) i) (rest (program ws.now s) r))) }
{
    let c = state_class(ws, s, i);
    let name = num(ws, s, r);
    if !holds(flow, width(s), name, c) {
        return false;
    }
    rest_closed(ws, s, afters, at, i, r, 1)
}

// The bits k of the branches from row q on, or LACKS where state i does not go on at one of them.
fn branches_here(
    ws: &[u16],
    s: Sizes,
    afters: &[u16],
    at: &[u16],
    i: usize,
    q: usize,
    count: usize,
    k: usize,
) -> usize
    requires layout_ready { LayoutReady ws.now s afters.now }
    requires i_lt_states { (i < s.states) × Run (program ws.now s) q count }
    ensures { Here (program ws.now s) (tables ws.now s)
        (state_at (tables ws.now s) i) (branch_rows (program ws.now s) count q) k result }
{
    if k == LACKS {
        return LACKS;
    }
    if bodies_closed(ws, s, afters, at, i, q, count, k) {
        k
    } else {
        LACKS
    }
}

// 0 where it is so, LACKS where not.
fn unless(b: bool) -> usize
    ensures { Flagged b result }
{
    if b { 0 } else { LACKS }
}

// State i, whose head at row r asks k whatever the state: LACKS where something that it asks for is missing, else the
// bits of its branches.
pub fn state_bits(
    ws: &[u16],
    s: Sizes,
    afters: &[u16],
    starts: &[u16],
    flow: &[u64],
    mail: &[u64],
    may: &[u64],
    held: &[u64],
    at: &[u16],
    i: usize,
    r: usize,
    k: usize,
) -> usize
    requires closure_ready { ClosureReady ws.now s afters.now starts.now flow.now mail.now may.now held.now }
    requires state_asked { StateAsked ws.now s i r k }
    ensures { Stated (program ws.now s) (tables ws.now s)
        (state_at (tables ws.now s) i) result }
{
    match tag(ws, s, r) {
        TAG_GIVE => unless(give_closed(ws, s, flow, at, i, r)),
        TAG_CALL => unless(call_closed(ws, s, starts, at, i, r, k)),
        TAG_SELF => unless(self_closed(ws, s, afters, flow, at, i, r)),
        TAG_CASE => {
            let count = num(ws, s, r + 1);
            branches_here(ws, s, afters, at, i, r + 2, count, k)
        }
        TAG_RECEIVE => {
            let number = num(ws, s, r);
            let c = state_class(ws, s, i);
            let set = mail_set(ws, s, c);
            let bits = taken_bits(ws, s, afters, flow, may, held, mail, set, r + 1, number);
            branches_here(ws, s, afters, at, i, r + 1, number, bits)
        }
        _ => unless(rest_closed(ws, s, afters, at, i, r, k)),
    }
}
