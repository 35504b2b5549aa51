// The branches of a case and of a receive: which may match, as bits, and whether the expressions of those are states.
#![tactic(auto)]

ghost use Rattle.std.specs.Prelude.{◌≡◌, ◌<◌};
ghost use Rattle.model.specs.Index.{implies};
ghost use Rattle.model.specs.Rows.{program};
ghost use Rattle.model.specs.Heads.{branch_rows};
ghost use Rattle.model.specs.Tables.{tables, onward, state_at, has_state};
ghost use Rattle.bits.specs.Bits.{odd};
ghost use Rattle.lists.specs.Ready.{Ready};
ghost use Rattle.positions.specs.Positions.{Run};
ghost use Rattle.matching.specs.Patterns.{MatchReady};
ghost use Rattle.branches.specs.Taken.{IsTaken, are_bodies_closed, LayoutReady, BranchesAsked};

use lists::word;
use matching::codes::values_code;
use model::Sizes;
use onward::onward;

// More than any bits of 16 branches: something lacks.
pub const LACKS: usize = 65536;

// Which of the branches from row q on may match a value of set n, as bits; LACKS where one that may does not find its
// names' values.
pub fn taken_bits(
    ws: &[u16],
    s: Sizes,
    afters: &[u16],
    flow: &[u64],
    may: &[u64],
    held: &[u64],
    sets: &[u64],
    n: usize,
    q: usize,
    count: usize,
) -> usize
    requires cases { MatchReady ws.now s afters.now flow.now may.now held.now 0 }
    requires branches_asked { BranchesAsked ws.now s sets.now n q count }
    ensures { IsTaken (program ws.now s) (tables ws.now s)
        sets.now n q count result }
{
    let mut row = q;
    let mut bits = 0;
    let mut weight = 1;
    for _ in 0..count {
        let code = values_code(ws, s, flow, may, held, sets, n, row);
        if code >= 2 {
            return LACKS;
        }
        bits = bits + code * weight;
        weight = weight * 2;
        let expression = word(afters, row);
        row = word(afters, expression);
    }
    bits
}

// Where the first bit is set: whether state i goes on at row r.
fn body_closed(ws: &[u16], s: Sizes, at: &[u16], i: usize, bits: usize, r: usize) -> bool
    requires ready { Ready ws.now s }
    requires i_lt_states { i < s.states }
    ensures { result ≡
        implies (odd bits)
        (has_state (tables ws.now s) (onward (state_at (tables ws.now s) i) r)) }
{
    if bits % 2 == 1 {
        onward(ws, s, at, i, r) < s.states
    } else {
        true
    }
}

// Whether state i goes on at the expressions of the branches from row q on whose bits are set.
pub fn bodies_closed(
    ws: &[u16],
    s: Sizes,
    afters: &[u16],
    at: &[u16],
    i: usize,
    q: usize,
    count: usize,
    bits: usize,
) -> bool
    requires layout_ready { LayoutReady ws.now s afters.now }
    requires i_lt_states { (i < s.states) × Run (program ws.now s) q count }
    ensures { result ≡
        are_bodies_closed (program ws.now s) (tables ws.now s)
        (state_at (tables ws.now s) i) bits (branch_rows (program ws.now s) count q) }
{
    let mut row = q;
    let mut more = bits;
    for _ in 0..count {
        let expression = word(afters, row);
        if !body_closed(ws, s, at, i, more, expression) {
            return false;
        }
        more = more / 2;
        row = word(afters, expression);
    }
    true
}
