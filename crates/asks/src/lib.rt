// What a call, a send and a spawn ask whatever the state, as codes: 0 nothing, 1 the rest as a state, 2 something
// lacks.
#![tactic(auto)]

ghost use Rattle.std.specs.Prelude.{◌≡◌, true, ◌+◌, ◌≤◌, ◌<◌};
ghost use Rattle.model.specs.Rows.{program, tag, num};
ghost use Rattle.model.specs.Heads.{call_at, parameters, takes};
ghost use Rattle.model.specs.Tables.{tables, has, each};
ghost use Rattle.model.specs.Closed.{passes};
ghost use Rattle.lists.specs.Lists.{Starts};
ghost use Rattle.values.specs.Values.{FlowSets, FlowReady};
ghost use Rattle.asks.specs.Asks.{MailReady, call_asks, does_send_ask, does_spawn_ask, asks, Asked};

use lists::{flow_value, state_index, word};
use matching::codes::worse;
use model::{Sizes, TAG_CALL, TAG_SEND};
use positions::{body, takes};
use program::rows::{is_class, num, tag};
use sets::{holds, meets, within};
use values::{mail_set, width};

// Whether all values of the name a are among those of the name b.
pub fn includes(ws: &[u16], s: Sizes, flow: &[u64], a: usize, b: usize) -> bool
    requires flow_sets { FlowSets (program ws.now s) (tables ws.now s) flow.now }
    requires a_lt_names { (a < s.names) × (b < s.names) }
    ensures { result ≡ each (tables ws.now s).flow a (has (tables ws.now s).flow b) }
{
    within(flow, flow, width(s), a, b)
}

// Whether the parameters of f hold the values of the arguments of the call at row r.
fn passes(ws: &[u16], s: Sizes, flow: &[u64], r: usize, f: usize) -> bool
    requires flow_ready { FlowReady ws.now s flow.now }
    requires r_value { (tag (program ws.now s) r ≡ 4)
        × (takes (program ws.now s) f (num (program ws.now s) (r + 2)) ≡ true) }
    ensures { result ≡
        passes (tables ws.now s) (call_at (program ws.now s) r)
        (parameters (program ws.now s) f) }
{
    let n = num(ws, s, r + 2);
    for i in 0..n {
        let argument = num(ws, s, r + 3 + i);
        let parameter = num(ws, s, f + 2 + i);
        if !includes(ws, s, flow, argument, parameter) {
            return false;
        }
    }
    true
}

// What the call at row r asks where the callee may be f.
fn call_asks(ws: &[u16], s: Sizes, flow: &[u64], r: usize, f: usize) -> usize
    requires flow_ready { FlowReady ws.now s flow.now }
    requires r_value { tag (program ws.now s) r ≡ 4 }
    ensures { result ≡ call_asks (program ws.now s) (tables ws.now s) r f }
{
    let count = num(ws, s, r + 2);
    if !takes(ws, s, f, count) {
        return 0;
    }
    if passes(ws, s, flow, r, f) { 0 } else { 2 }
}

// What the send at row r asks where the target may be d.
fn send_asks(ws: &[u16], s: Sizes, flow: &[u64], mail: &[u64], r: usize, d: usize) -> usize
    requires mail_ready { MailReady ws.now s flow.now mail.now }
    requires r_value { tag (program ws.now s) r ≡ 5 }
    ensures { result ≡ does_send_ask (program ws.now s) (tables ws.now s) r d }
{
    if !is_class(ws, s, d) {
        return 0;
    }
    let w = width(s);
    let message = num(ws, s, r + 2);
    if !meets(flow, flow, w, message, message) {
        return 0;
    }
    let k = mail_set(ws, s, d);
    if !within(flow, mail, w, message, k) {
        return 2;
    }
    let name = num(ws, s, r);
    if includes(ws, s, flow, message, name) {
        1
    } else {
        2
    }
}

// What the spawn at row r asks where the function may be f.
fn spawn_asks(ws: &[u16], s: Sizes, flow: &[u64], r: usize, f: usize) -> usize
    requires flow_ready { FlowReady ws.now s flow.now }
    requires r_value { tag (program ws.now s) r ≡ 6 }
    ensures { result ≡ does_spawn_ask (program ws.now s) (tables ws.now s) r f }
{
    if !takes(ws, s, f, 0) {
        return 0;
    }
    let w = width(s);
    let name = num(ws, s, r);
    if !holds(flow, w, name, r) {
        return 2;
    }
    let first = body(ws, s, f);
    if state_index(ws, s, r, first, s.rows) < s.states {
        1
    } else {
        2
    }
}

// What the call, send or spawn at row r asks with the value x of the name that it reads first.
fn asks(ws: &[u16], s: Sizes, flow: &[u64], mail: &[u64], r: usize, x: usize) -> usize
    requires mail_ready { MailReady ws.now s flow.now mail.now }
    requires bound { (4 ≤ tag (program ws.now s) r) × (tag (program ws.now s) r ≤ 6) }
    ensures { result ≡ asks (program ws.now s) (tables ws.now s) r x }
{
    match tag(ws, s, r) {
        TAG_CALL => call_asks(ws, s, flow, r, x),
        TAG_SEND => send_asks(ws, s, flow, mail, r, x),
        _ => spawn_asks(ws, s, flow, r, x),
    }
}

// What it asks with all values of that name.
pub fn asked(ws: &[u16], s: Sizes, starts: &[u16], flow: &[u64], mail: &[u64], r: usize) -> usize
    requires mail_ready { MailReady ws.now s flow.now mail.now }
    requires starts { Starts (tables ws.now s).flow s.names starts.now
        × ((4 ≤ tag (program ws.now s) r) × (tag (program ws.now s) r ≤ 6)) }
    ensures { Asked (program ws.now s) (tables ws.now s) r result × (result ≤ 2) }
{
    let name = num(ws, s, r + 1);
    let from = word(starts, name);
    let to = word(starts, name + 1);
    let mut worst = 0;
    for j in from..to {
        let x = flow_value(ws, s, j);
        let code = asks(ws, s, flow, mail, r, x);
        worst = worse(worst, code);
    }
    worst
}
