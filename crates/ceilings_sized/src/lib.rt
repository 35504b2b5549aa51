// Refusals 11 to 14 over scratch by need: each size of it is a function of its own.
#![tactic(auto)]

ghost use Rattle.std.specs.Prelude.{◌≡◌, ◌*◌, ◌≤◌, length};
ghost use Rattle.model.specs.Verify.{outcome};
ghost use Rattle.rule_tables.specs.Joined.{JoinedTables};
ghost use Rattle.system_space.specs.Space.{words_after};
ghost use Rattle.stages.specs.Order.{below_ceilings};
ghost use Rattle.stages.specs.Scratch.{Numbered, ListsFit, LimitsFit};

use ceilings_stage::ceilings_on;
use model::{Sizes, Verdict};
use rooms::{LIMIT_ROOM, MASK_PAIRS, MASK_TRIPLES, ROW_ROOM, words16, words32, words64};

// Refusals 11 to 14 over limits, counts, sets of ceilings and lists of rules of these lengths.
fn limits_over<
    const LIMITS: usize,
    const SUMS: usize,
    const TRIPLES: usize,
    const PAIRS: usize,
    const LIST: usize,
>(
    ws: &[u16],
    s: Sizes,
    narrow: &[u16],
    fitting: &[u64],
    names: &[u64],
    letters: &[u64],
    n: usize,
    lent: &mut [u32],
) -> Result<(), Verdict>
    requires joined_tables { JoinedTables ws.now s narrow.now fitting.now names.now letters.now }
    requires numbered { Numbered ws.now s n }
    requires limits_fit { LimitsFit s n LIMITS SUMS TRIPLES PAIRS }
    requires lists_fit { ListsFit n LIST }
    ensures value { result ≡ outcome (below_ceilings ws.now s n (length lent.old)) }
    ensures lent_after { lent.new ≡ words_after result ws.now s lent.old }
{
    let mut limits = words16::<LIMITS>();
    let mut ceiling_at = words16::<258>();
    let mut sums = words32::<SUMS>();
    let mut holders = words64::<TRIPLES>();
    let mut group = words64::<TRIPLES>();
    let mut near = words64::<PAIRS>();
    let mut tos = words16::<LIST>();
    let mut others = words16::<LIST>();
    ceilings_on(
        ws,
        s,
        narrow,
        fitting,
        names,
        letters,
        n,
        &mut limits,
        &mut ceiling_at,
        &mut sums,
        &mut holders,
        &mut group,
        &mut near,
        &mut tos,
        &mut others,
        lent,
    )
}

// Refusals 11 to 14 over the least scratch that fits, which that for `most` counters or more may be. It calls itself
// for the next size, as `open_verdict` does: each size has a frame of its own.
pub fn ceilings_verdict(
    most: usize,
    ws: &[u16],
    s: Sizes,
    narrow: &[u16],
    fitting: &[u64],
    names: &[u64],
    letters: &[u64],
    n: usize,
    lent: &mut [u32],
) -> Result<(), Verdict>
    requires le_most { 1 ≤ most }
    requires joined_tables { JoinedTables ws.now s narrow.now fitting.now names.now letters.now }
    requires numbered { Numbered ws.now s n }
    ensures value { result ≡ outcome (below_ceilings ws.now s n (length lent.old)) }
    ensures lent_after { lent.new ≡ words_after result ws.now s lent.old }
{
    if most >= 512 {
        return limits_over::<LIMIT_ROOM, ROW_ROOM, MASK_TRIPLES, MASK_PAIRS, 16384>(
            ws, s, narrow, fitting, names, letters, n, lent,
        );
    }
    if n <= most {
        let cells = n * s.ceilings;
        if most <= 32 {
            if cells <= 2048 {
                return limits_over::<2048, 66, 384, 256, ROW_ROOM>(
                    ws, s, narrow, fitting, names, letters, n, lent,
                );
            }
        }
        if most <= 128 {
            if cells <= 16384 {
                return limits_over::<16384, 258, 1536, 1024, 2048>(
                    ws, s, narrow, fitting, names, letters, n, lent,
                );
            }
        }
    }
    ceilings_verdict(4 * most, ws, s, narrow, fitting, names, letters, n, lent)
}
