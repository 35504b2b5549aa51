// Bads that no line of weights weighs above the start: refusal 18.
#![tactic(auto)]

ghost use Rattle.std.specs.Prelude.{◌≡◌, ◌≤◌, ◌<◌, length};
ghost use Rattle.model.specs.Rows.{program};
ghost use Rattle.model.specs.Tables.{tables};
ghost use Rattle.model.specs.Bads.{bad_rows};
ghost use Rattle.model.specs.Weights.{lines_of, without_counter, is_settled_of, light_check_of};
ghost use Rattle.model.specs.Verify.{outcome};
ghost use Rattle.bits.specs.Bits.{Row};
ghost use Rattle.ceilings_form.specs.Parts.{Whole};
ghost use Rattle.ceilings.specs.Table.{held};
ghost use Rattle.bads_rows.specs.Items.{ItemsCounted, BadsInForm, items_at};
ghost use Rattle.weights_light.specs.Weighing.{Weighing};

use bads_rows::{bad_tag, next_bad, next_item};
use model::{Sizes, TAG_CLASS, Verdict};
use weights::weight;
use weights_least::{Count, Weight, least_weight};

// Some item of the bad that stands at row r has no counter, so that no counts meet the bad.
fn lacks_counter(ws: &[u16], s: Sizes, froms: &[u16], tos: &[u16], r: usize) -> bool
    requires whole { Whole ws.now s }
    requires items_counted { ItemsCounted (program ws.now s) (tables ws.now s) (bad_rows ws.now s) froms.now tos.now }
    requires r_le_badrows { r ≤ s.badrows }
    ensures { result ≡ without_counter (program ws.now s) (tables ws.now s)
        (items_at (bad_rows ws.now s) r) }
{
    // A walk from item to item, which are of several lengths: no index is counted.
    let mut i = r;
    loop {
        if bad_tag(ws, s, i) != TAG_CLASS {
            return false;
        }
        if froms[i] == tos[i] {
            return true;
        }
        i = next_item(ws, s, i);
    }
}

// What the start weighs in line k: the weight of its counter x0, since all other counts are 0.
fn start_weight(weights: &[u16], lines: usize, k: usize, x0: usize) -> Weight
    requires k_lt_lines { k < lines }
    requires row { Row weights.now lines x0 }
    ensures { result ≡ held weights.now lines k x0 }
{
    weight(weights, lines, k, x0) as Weight
}

// The bad that stands at row r is settled: an item of it has no counter, or some line weighs it above the start, whose
// counter is x0. The counts are scratch: for each line they are cleared and filled anew.
fn is_settled(
    ws: &[u16],
    s: Sizes,
    n: usize,
    weights: &[u16],
    froms: &[u16],
    tos: &[u16],
    x0: usize,
    r: usize,
    counts: &mut [Count],
) -> bool
    requires weighing { Weighing ws.now s n weights.now froms.now tos.now x0 }
    requires r_le_badrows { (r ≤ s.badrows) × (n ≤ length counts.old) }
    ensures { result ≡ is_settled_of (program ws.now s) (tables ws.now s)
        (lines_of ws.now s n) (items_at (bad_rows ws.now s) r) }
{
    if lacks_counter(ws, s, froms, tos, r) {
        return true;
    }
    for k in 0..s.lines {
        let start = start_weight(weights, s.lines, k, x0);
        if start < least_weight(ws, s, n, weights, froms, tos, k, r, counts) {
            return true;
        }
    }
    false
}

// Refusal 18: the first bad that is not settled. The work is bounded by the message: each of its items, 85 at most, is
// looked at in each of 16 lines over its counters, 1,024 at most. Nothing is promised of the counts afterwards.
pub fn light_check(
    ws: &[u16],
    s: Sizes,
    n: usize,
    weights: &[u16],
    froms: &[u16],
    tos: &[u16],
    x0: usize,
    counts: &mut [Count],
) -> Result<(), Verdict>
    requires weighing { Weighing ws.now s n weights.now froms.now tos.now x0 }
    requires bads_in_form { BadsInForm ws.now s }
    requires n_in_bounds { n ≤ length counts.old }
    ensures { result ≡ outcome (light_check_of s (program ws.now s) (tables ws.now s)
        (lines_of ws.now s n) (bad_rows ws.now s)) }
{
    let at = 4 + 2 * s.rows + 2;
    let mut r: usize = 0;
    for j in 0..s.bads {
        if !is_settled(ws, s, n, weights, froms, tos, x0, r, counts) {
            let here = at + r;
            return Err(Verdict::Light(here));
        }
        r = next_bad(ws, s, r);
    }
    Ok(())
}
