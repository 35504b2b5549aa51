// Refusals 17, 18 and 14 of a message with lines of weights: the table of weights and the rules of each state, over
// scratch by need; after none the listing is written.
#![tactic(auto)]

ghost use Rattle.std.specs.Prelude.{◌≡◌, ◌≤◌, length};
ghost use Rattle.model.specs.Verify.{outcome};
ghost use Rattle.rules.specs.Derived.{RuleRoom};
ghost use Rattle.rule_tables.specs.Joined.{JoinedTables};
ghost use Rattle.system_space.specs.Space.{words_after};
ghost use Rattle.stages.specs.Order.{below_weights};
ghost use Rattle.ceilings.specs.Table.{BoundsRoom};
ghost use Rattle.stages.specs.Scratch.{Lined, ListsFit, WeightsFit};

use model::{Sizes, Verdict};
use rooms::{ROW_ROOM, row_words16, words16};
use rule_tables::LETTER_AT;
use stages::light_verdict;
use system_space::space_verdict;
use weights::fill_weights;
use weights_least::Count;
use weights_rise::rise_check;

// Refusals 17, 18 and 14 over a lent table of weights, counts and lists of rules.
fn weights_on(
    ws: &[u16],
    s: Sizes,
    narrow: &[u16],
    fitting: &[u64],
    names: &[u64],
    letters: &[u64],
    n: usize,
    weights: &mut [u16],
    starts: &mut [u16],
    counts: &mut [Count],
    tos: &mut [u16],
    others: &mut [u16],
    lent: &mut [u32],
) -> Result<(), Verdict>
    requires joined_tables { JoinedTables ws.now s narrow.now fitting.now names.now letters.now }
    requires lined { Lined ws.now s n }
    requires bounds_room { BoundsRoom n s.lines weights.old starts.old × (n ≤ length counts.old) }
    requires rule_room { RuleRoom ws.now s tos.old others.old × (length tos.old ≤ 65536) }
    ensures value { result ≡ outcome (below_weights ws.now s n (length lent.old)) }
    ensures lent_after { lent.new ≡ words_after result ws.now s lent.old }
{
    fill_weights(ws, s, n, weights, starts);
    let mut at = row_words16();
    let (totals, raised) = rise_check(
        ws, s, narrow, fitting, names, letters, n, weights, starts, &mut at, tos, others,
    );
    raised?;
    light_verdict(
        ws,
        s,
        narrow,
        &narrow[LETTER_AT..],
        letters,
        n,
        weights,
        counts,
    )?;
    space_verdict(
        ws, s, narrow, fitting, names, letters, totals, &mut at, tos, others, lent,
    )
}

// Refusals 17, 18 and 14 over weights, counts and lists of rules of these lengths.
fn weights_over<const WEIGHTS: usize, const COUNTS: usize, const LIST: usize>(
    ws: &[u16],
    s: Sizes,
    narrow: &[u16],
    fitting: &[u64],
    names: &[u64],
    letters: &[u64],
    n: usize,
    lent: &mut [u32],
) -> Result<(), Verdict>
    requires joined_tables { JoinedTables ws.now s narrow.now fitting.now names.now letters.now }
    requires lined { Lined ws.now s n }
    requires weights_fit { WeightsFit s n WEIGHTS COUNTS }
    requires lists_fit { ListsFit n LIST }
    ensures value { result ≡ outcome (below_weights ws.now s n (length lent.old)) }
    ensures lent_after { lent.new ≡ words_after result ws.now s lent.old }
{
    let mut weights = words16::<WEIGHTS>();
    let mut starts = words16::<66>();
    let mut counts = words16::<COUNTS>();
    let mut tos = words16::<LIST>();
    let mut others = words16::<LIST>();
    weights_on(
        ws,
        s,
        narrow,
        fitting,
        names,
        letters,
        n,
        &mut weights,
        &mut starts,
        &mut counts,
        &mut tos,
        &mut others,
        lent,
    )
}

// Refusals 17, 18 and 14 over the lesser scratch where it fits, which that for `most` counters may be. It calls itself
// for the larger one, as `ceilings_verdict` does: each size has a frame of its own. It is asked for 24 counters first:
// asked for 96 at once, a compiler sees that it calls itself once at the most, and makes one frame of all.
pub fn weights_verdict(
    most: usize,
    ws: &[u16],
    s: Sizes,
    narrow: &[u16],
    fitting: &[u64],
    names: &[u64],
    letters: &[u64],
    n: usize,
    lent: &mut [u32],
) -> Result<(), Verdict>
    requires le_most { 1 ≤ most }
    requires joined_tables { JoinedTables ws.now s narrow.now fitting.now names.now letters.now }
    requires lined { Lined ws.now s n }
    ensures value { result ≡ outcome (below_weights ws.now s n (length lent.old)) }
    ensures lent_after { lent.new ≡ words_after result ws.now s lent.old }
{
    if most > 96 {
        return weights_over::<16384, 2048, 16384>(ws, s, narrow, fitting, names, letters, n, lent);
    }
    if n <= most {
        return weights_over::<2048, 258, ROW_ROOM>(ws, s, narrow, fitting, names, letters, n, lent);
    }
    weights_verdict(4 * most, ws, s, narrow, fitting, names, letters, n, lent)
}
