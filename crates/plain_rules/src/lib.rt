// The rules of the heads that go by no letter, all rules of a state at once: where they lead, and of a spawn the other
// counter.
#![tactic(auto)]

ghost use Rattle.std.specs.Prelude.{◌≡◌, true, [], ◌≤◌, ◌<◌, length, get_or};
ghost use Rattle.bits.specs.Bits.{bit};
ghost use Rattle.model.specs.Words.{left, right};
ghost use Rattle.model.specs.Rows.{program, tag, is_head_of, give, call, spawn, self, case};
ghost use Rattle.model.specs.Scopes.{rest};
ghost use Rattle.model.specs.Tables.{tables, state, onward, state_at, state_index_of};
ghost use Rattle.model.specs.Limits.{max_branches};
ghost use Rattle.model.specs.Rules.{state_rules_of};
ghost use Rattle.lists.specs.Lists.{Starts};
ghost use Rattle.lists.specs.Ready.{Ready};
ghost use Rattle.positions.specs.Branches.{BranchBits};
ghost use Rattle.layout.specs.Tables.{Ends};
ghost use Rattle.rules.specs.Added.{Added};
ghost use Rattle.rules.specs.Derived.{RuleRoom};
ghost use Rattle.plain_rules.specs.Heads.{Plain};

use lists::{flow_value, heads_from, heads_to, state_class, state_index, state_return, word};
use model::Sizes;
use onward::{called, onward};
use positions::{body, branch_body, rest, takes};
use program::rows::num;

// The state at row r with the class and the return of state i.
pub fn onto(ws: &[u16], s: Sizes, at: &[u16], i: usize, r: usize) -> u16
    requires ready { Ready ws.now s }
    requires i_lt_states { i < s.states }
    ensures { result ≡
        state_index_of (tables ws.now s) (onward (state_at (tables ws.now s) i) r) }
{
    let x = onward(ws, s, at, i, r);
    x as u16
}

// The state at row r, the body that the call of state i enters: it returns to the call.
fn into(ws: &[u16], s: Sizes, at: &[u16], i: usize, r: usize) -> u16
    requires ready { Ready ws.now s }
    requires i_lt_states { i < s.states }
    ensures { result ≡ state_index_of (tables ws.now s)
        (state (left (tables ws.now s).states i) r (right (tables ws.now s).states i)) }
{
    let x = called(ws, s, at, i, r);
    x as u16
}

// The state in which a process begins at row e that the spawn at row r starts: it returns to nothing.
fn begun(ws: &[u16], s: Sizes, r: usize, e: usize) -> usize
    requires { Ready ws.now s }
    ensures { result ≡ state_index_of (tables ws.now s) (state r e s.rows) }
{
    state_index(ws, s, r, e, s.rows)
}

// The state behind the head at row r, with the class and the return of state i.
pub fn behind(ws: &[u16], s: Sizes, afters: &[u16], at: &[u16], i: usize, r: usize) -> u16
    requires ready { Ready ws.now s }
    requires ends { Ends (program ws.now s) afters.now }
    requires i_lt_states { (i < s.states) × (is_head_of (tag (program ws.now s) r) ≡ true) }
    ensures { result ≡ state_index_of (tables ws.now s)
        (onward (state_at (tables ws.now s) i) (rest (program ws.now s) r)) }
{
    let e = rest(ws, s, afters, r);
    onto(ws, s, at, i, e)
}

// A give back: each state at the call that state i returns to goes on behind it; nothing where nothing is pushed.
pub fn give_rules(
    ws: &[u16],
    s: Sizes,
    afters: &[u16],
    at: &[u16],
    i: usize,
    tos: &mut [u16],
) -> usize
    requires ready { Ready ws.now s }
    requires ends { Ends (program ws.now s) afters.now }
    requires i_lt_states { i < s.states }
    requires i_value { tag (program ws.now s) (right (tables ws.now s).states i) ≡ 1 }
    requires states_in_bounds { s.states ≤ length tos.old }
    ensures { Added give tos.old [] 0 tos.new [] result
        (λ e. state_rules_of (program ws.now s) (tables ws.now s) e
        (state_at (tables ws.now s) i)) }
{
    let b = state_return(ws, s, i);
    if b == s.rows {
        return 0;
    }
    let c = state_class(ws, s, i);
    let from = heads_from(ws, s, c, b);
    let to = heads_to(ws, s, c, b);
    let e = rest(ws, s, afters, b);
    let mut n = 0;
    for j in from..to {
        tos[n] = onto(ws, s, at, j, e);
        n += 1;
    }
    n
}

// A call: each function that it may be, with equal count.
pub fn call_rules(
    ws: &[u16],
    s: Sizes,
    flow_at: &[u16],
    at: &[u16],
    i: usize,
    r: usize,
    tos: &mut [u16],
) -> usize
    requires ready { Ready ws.now s }
    requires starts { Starts (tables ws.now s).flow s.names flow_at.now }
    requires i_lt_states { (i < s.states) × (r ≡ right (tables ws.now s).states i) }
    requires r_value { tag (program ws.now s) r ≡ 4 }
    requires rows_in_bounds { s.rows < length tos.old }
    ensures { Added call tos.old [] 0 tos.new [] result
        (λ e. state_rules_of (program ws.now s) (tables ws.now s) e
        (state_at (tables ws.now s) i)) }
{
    let callee = num(ws, s, r + 1);
    let count = num(ws, s, r + 2);
    let from = word(flow_at, callee);
    let to = word(flow_at, callee + 1);
    let mut n = 0;
    for j in from..to {
        let f = flow_value(ws, s, j);
        if !takes(ws, s, f, count) {
            continue;
        }
        let e = body(ws, s, f);
        tos[n] = into(ws, s, at, i, e);
        n += 1;
    }
    n
}

// A spawn: each function without parameters that it may be.
pub fn spawn_rules(
    ws: &[u16],
    s: Sizes,
    afters: &[u16],
    flow_at: &[u16],
    at: &[u16],
    i: usize,
    r: usize,
    tos: &mut [u16],
    others: &mut [u16],
) -> usize
    requires ready { Ready ws.now s }
    requires ends { Ends (program ws.now s) afters.now }
    requires starts { Starts (tables ws.now s).flow s.names flow_at.now }
    requires i_lt_states { (i < s.states) × (r ≡ right (tables ws.now s).states i) }
    requires r_value { tag (program ws.now s) r ≡ 6 }
    requires rule_room { RuleRoom ws.now s tos.old others.old }
    ensures { Added spawn tos.old others.old 0 tos.new others.new result
        (λ e. state_rules_of (program ws.now s) (tables ws.now s) e
        (state_at (tables ws.now s) i)) }
{
    let name = num(ws, s, r + 1);
    let next = behind(ws, s, afters, at, i, r);
    let from = word(flow_at, name);
    let to = word(flow_at, name + 1);
    let mut n = 0;
    for j in from..to {
        let f = flow_value(ws, s, j);
        if !takes(ws, s, f, 0) {
            continue;
        }
        let x = begun(ws, s, r, body(ws, s, f));
        tos[n] = next;
        others[n] = x as u16;
        n += 1;
    }
    n
}

// A build, a function or self: the state behind.
pub fn rest_rules(
    ws: &[u16],
    s: Sizes,
    afters: &[u16],
    at: &[u16],
    i: usize,
    r: usize,
    tos: &mut [u16],
) -> usize
    requires ready { Ready ws.now s }
    requires ends { Ends (program ws.now s) afters.now }
    requires i_lt_states { (i < s.states) × (r ≡ right (tables ws.now s).states i) }
    requires plain { Plain (program ws.now s) r }
    requires tos_nonzero { 0 < length tos.old }
    ensures { Added self tos.old [] 0 tos.new [] result
        (λ e. state_rules_of (program ws.now s) (tables ws.now s) e
        (state_at (tables ws.now s) i)) }
{
    tos[0] = behind(ws, s, afters, at, i, r);
    1
}

// May branch b of state i match?
pub fn may_match(branches: &[u16], i: usize, b: usize) -> bool
    requires { (i < length branches.now) × (b < 16) }
    ensures { result ≡ bit (get_or branches.now i 0) b }
{
    let x = word(branches, i);
    (x >> b) & 1 == 1
}

// A case: each branch that may match.
pub fn case_rules(
    ws: &[u16],
    s: Sizes,
    afters: &[u16],
    branches: &[u16],
    at: &[u16],
    i: usize,
    r: usize,
    tos: &mut [u16],
) -> usize
    requires ready { Ready ws.now s }
    requires ends { Ends (program ws.now s) afters.now }
    requires branch_bits { BranchBits (program ws.now s) (tables ws.now s) branches.now }
    requires r_value { tag (program ws.now s) r ≡ 8 }
    requires i_lt_states { (i < s.states) × (r ≡ right (tables ws.now s).states i) }
    requires max_branches_in_bounds { max_branches ≤ length tos.old }
    ensures { Added case tos.old [] 0 tos.new [] result
        (λ e. state_rules_of (program ws.now s) (tables ws.now s) e
        (state_at (tables ws.now s) i)) }
{
    let m = num(ws, s, r + 1);
    let mut q = r + 2;
    let mut n = 0;
    for b in 0..m {
        let e = branch_body(ws, s, afters, q);
        let here = onto(ws, s, at, i, e);
        q = word(afters, e);
        if !may_match(branches, i, b) {
            continue;
        }
        tos[n] = here;
        n += 1;
    }
    n
}
