// Refusal 8: the states one after the other.
#![tactic(auto)]

ghost use Rattle.std.specs.Prelude.{◌≡◌, ◌≤◌, ◌<◌, Ok, length};
ghost use Rattle.model.specs.Limits.{present};
ghost use Rattle.model.specs.Rows.{program};
ghost use Rattle.model.specs.Tables.{tables, state_at};
ghost use Rattle.model.specs.Demands.{WithinLimits};
ghost use Rattle.model.specs.Verify.{outcome};
ghost use Rattle.branches.specs.Taken.{LayoutReady};
ghost use Rattle.settled.specs.Settled.{ClosureReady};
ghost use Rattle.codes.specs.Codes.{Codes};
ghost use Rattle.stated.specs.Stated.{Stated};
ghost use Rattle.closure.specs.Told.{Told, first_open_of, open_state, states_check};
ghost use Rattle.closure.specs.Lent.{Indexed, Cleared, OpenScratch, Openable, Opened};

use branches::LACKS;
use codes::code_at;
use lists::state_location;
use matching::builds::fill_builds;
use matching_names::fill_fitting;
use matching_sets::patterns::fill_patterns;
use model::{Sizes, Verdict};
use onward::guess_class;
use opening::opening_closed;
use parts::tables_at;
use stated::states::state_bits;
use values::{fill_flow, fill_mail, fill_starts};

// The tables that the states are told by: where each name's entries begin, the sets of names and classes, the sets of
// constructor patterns.
fn fill_tables(
    ws: &[u16],
    s: Sizes,
    afters: &[u16],
    starts: &mut [u16],
    flow: &mut [u64],
    mail: &mut [u64],
    firsts: &mut [u16],
    nexts: &mut [u16],
    may: &mut [u64],
    held: &mut [u64],
)
    requires layout_ready { LayoutReady ws.now s afters.now × (s.names < length starts.old) }
    requires indexed { Indexed s firsts.old nexts.old × Cleared s flow.old mail.old may.old held.old }
    ensures { ClosureReady ws.now s afters.now starts.new flow.new
        mail.new may.new held.new }
{
    fill_starts(ws, s, starts);
    fill_flow(ws, s, flow);
    fill_mail(ws, s, mail);
    fill_builds(ws, s, firsts, nexts);
    fill_patterns(ws, s, afters, flow, firsts, nexts, may, held);
}

// The bits of state i, LACKS where it lacks something, by what its head asks.
fn settled_bits(
    ws: &[u16],
    s: Sizes,
    afters: &[u16],
    starts: &[u16],
    flow: &[u64],
    mail: &[u64],
    may: &[u64],
    held: &[u64],
    codes: &mut [u32],
    at: &[u16],
    i: usize,
) -> usize
    requires closure_ready { ClosureReady ws.now s afters.now starts.now flow.now mail.now may.now held.now }
    requires codes { Codes (program ws.now s) (tables ws.now s) codes.old × (i < s.states) }
    ensures stated { Stated (program ws.now s) (tables ws.now s)
        (state_at (tables ws.now s) i) result }
    ensures codes_2 { Codes (program ws.now s) (tables ws.now s) codes.new }
{
    let r = state_location(ws, s, i);
    let k = code_at(ws, s, afters, starts, flow, mail, may, held, codes, r);
    state_bits(ws, s, afters, starts, flow, mail, may, held, at, i, r, k)
}

// The refusal of state i, which lacks something.
fn open_state(s: Sizes, i: usize) -> Verdict
    requires within_limits { WithinLimits present s }
    requires i_lt_states { i < s.states }
    ensures { result ≡ open_state s i }
{
    let place = tables_at(s) + 3 + s.flows + s.mails + i;
    Verdict::Open(place)
}

// The refusal of the first state that lacks something, and the branches of the states before it have their bits; where
// none does, those of all states.
fn states_check(
    ws: &[u16],
    s: Sizes,
    afters: &[u16],
    starts: &[u16],
    flow: &[u64],
    mail: &[u64],
    may: &[u64],
    held: &[u64],
    codes: &mut [u32],
    at: &mut [u16],
    branches: &mut [u16],
) -> Result<(), Verdict>
    requires closure_ready { ClosureReady ws.now s afters.now starts.now flow.now mail.now may.now held.now }
    requires states_in_bounds { (s.states ≤ length branches.old)
        × Codes (program ws.now s) (tables ws.now s) codes.old }
    ensures says { result ≡ outcome (states_check s (program ws.now s) (tables ws.now s)) }
    ensures told { result ≡ Ok tt → Told (program ws.now s) (tables ws.now s) branches.new s.states }
    ensures told_before { Told (program ws.now s) (tables ws.now s) branches.new
        (first_open_of (program ws.now s) (tables ws.now s)) }
{
    for i in 0..s.states {
        guess_class(ws, s, at, i);
        let bits = settled_bits(ws, s, afters, starts, flow, mail, may, held, codes, at, i);
        if bits == LACKS {
            return Err(open_state(s, i));
        }
        branches[i] = bits as u16;
    }
    Ok(())
}

// Refusal 8. Where it is none, `starts` has where the values of each name begin, `fitting` the names with values that
// patterns may match, for held names with such a class, and `branches` for each state the bits of the branches that
// may match. The guesses of states stand in `nexts`, which nothing reads once the tables are filled.
pub fn open_check(
    ws: &[u16],
    s: Sizes,
    afters: &[u16],
    starts: &mut [u16],
    fitting: &mut [u64],
    flow: &mut [u64],
    mail: &mut [u64],
    firsts: &mut [u16],
    nexts: &mut [u16],
    may: &mut [u64],
    held: &mut [u64],
    codes: &mut [u32],
    branches: &mut [u16],
) -> Result<(), Verdict>
    requires openable { Openable ws.now s afters.now starts.old fitting.old (length branches.old) }
    requires open_scratch { OpenScratch s flow.old mail.old firsts.old nexts.old may.old held.old codes.old }
    ensures { Opened ws.now s starts.new fitting.new branches.new result }
{
    if !opening_closed(ws, s, afters) {
        return Err(Verdict::Open(tables_at(s)));
    }
    fill_tables(ws, s, afters, starts, flow, mail, firsts, nexts, may, held);
    states_check(
        ws, s, afters, starts, flow, mail, may, held, codes, nexts, branches,
    )?;
    fill_fitting(ws, s, may, fitting);
    Ok(())
}
