// Refusal 8 over scratch by need: the sets of names, of mail and of patterns, what each head asks, and guesses of
// states.
#![tactic(auto)]

ghost use Rattle.std.specs.Prelude.{◌+◌, ◌*◌, ◌^◌, ◌≤◌, ◌<◌, length};
ghost use Rattle.values.specs.Values.{width};
ghost use Rattle.closure.specs.Lent.{Openable, Opened};

use closure::open_check;
use model::{Sizes, Verdict};
use rooms::{NAME_SETS, ROW_ROOM, ROW_SETS, words16, words32, words64};

// Refusal 8 over tables of these lengths: a set for each name and one for the start, a set for each row, a word for
// each row.
fn open_over<const NAMES: usize, const SETS: usize, const ROWS: usize>(
    ws: &[u16],
    s: Sizes,
    afters: &[u16],
    starts: &mut [u16],
    fitting: &mut [u64],
    branches: &mut [u16],
) -> Result<(), Verdict>
    requires names_fit { (s.names + 1) * width s.rows ≤ NAMES }
    requires rows_fit { (s.rows * width s.rows ≤ SETS) × (s.rows ≤ ROWS) }
    requires lengths { (NAMES < 2 ^ 32) × ((SETS < 2 ^ 32) × (ROWS < 2 ^ 32)) }
    requires openable { Openable ws.now s afters.now starts.old fitting.old (length branches.old) }
    ensures { Opened ws.now s starts.new fitting.new branches.new result }
{
    let mut flow = words64::<NAMES>();
    let mut mail = words64::<NAMES>();
    let mut firsts = words16::<66>();
    let mut nexts = words16::<ROWS>();
    let mut may = words64::<SETS>();
    let mut held = words64::<SETS>();
    let mut codes = words32::<ROWS>();
    open_check(
        ws,
        s,
        afters,
        starts,
        fitting,
        &mut flow,
        &mut mail,
        &mut firsts,
        &mut nexts,
        &mut may,
        &mut held,
        &mut codes,
        branches,
    )
}

// Refusal 8 over the least tables that fit, which those for `most` rows and names or more may be; after none the
// tables that later checks read are filled. It calls itself for the next size, so that LLVM keeps each size's tables
// in a frame of their own (DECISIONS 46).
pub fn open_verdict(
    most: usize,
    ws: &[u16],
    s: Sizes,
    afters: &[u16],
    starts: &mut [u16],
    fitting: &mut [u64],
    branches: &mut [u16],
) -> Result<(), Verdict>
    requires le_most { 1 ≤ most }
    requires openable { Openable ws.now s afters.now starts.old fitting.old (length branches.old) }
    ensures { Opened ws.now s starts.new fitting.new branches.new result }
{
    if most >= 1024 {
        return open_over::<NAME_SETS, ROW_SETS, ROW_ROOM>(ws, s, afters, starts, fitting, branches);
    }
    if s.rows <= most {
        if s.names <= most {
            if most <= 64 {
                return open_over::<130, 130, 66>(ws, s, afters, starts, fitting, branches);
            }
            if most <= 256 {
                return open_over::<1285, 1285, 258>(ws, s, afters, starts, fitting, branches);
            }
        }
    }
    open_verdict(4 * most, ws, s, afters, starts, fitting, branches)
}
