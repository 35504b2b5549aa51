// The least weight of a bad in a line: what its items lack is put on the lightest of their counters, items on a single
// letter first, so that what these ask for counts for the groups too.
#![tactic(auto)]

ghost use Rattle.std.specs.Prelude.{◌≡◌, ◌+◌, ◌*◌, ◌≤◌, ◌<◌, length, get_or};
ghost use Rattle.model.specs.Limits.{max_counters};
ghost use Rattle.model.specs.Index.{total};
ghost use Rattle.model.specs.Rows.{program};
ghost use Rattle.model.specs.Tables.{tables};
ghost use Rattle.model.specs.Bads.{bad_rows, past_heads_of};
ghost use Rattle.model.specs.Weights.{is_single_of, fill, fill_those, least_weight_of};
ghost use Rattle.ceilings.specs.Table.{held};
ghost use Rattle.ceilings_form.specs.Parts.{Whole};
ghost use Rattle.bads_rows.specs.Items.{subject_from, item_from, items_at};
ghost use Rattle.weights_least.specs.Least.{counters_of, line_of, Weighable, counts_in, LightestIn, PutLacking};
ghost use Rattle.weights_least.specs.Least.{in_pass, HasCounter, AllCounted, most_put, Grown};

use bads_rows::{bad_number, bad_tag, next_item};
use model::{Sizes, TAG_CLASS, TAG_HEAD};
use weights::weight;

// A count. None passes the highest minimum of its items, 65,535: what is put on a counter is what the sum over an item
// that counts it lacks of the item's minimum, and the counter's own count is part of that sum.
pub type Count = u16;

// What counts weigh. 85 items, as many as the rows of bads hold, of 65,535 at a weight of 1,000 each pass 32 bits.
pub type Weight = u64;

// Nothing is counted yet.
fn clear(n: usize, counts: &mut [Count])
    requires { n ≤ length counts.old }
    ensures { counts_in n counts.new ≡ (λ x. 0) }
{
    counts[..n].fill(0);
}

// The sum of the counts from `from` below `to`.
fn sum_over(counts: &[Count], from: usize, to: usize) -> usize
    requires { (to ≤ max_counters) × (to ≤ length counts.now) }
    ensures { result ≡ total from to (λ x. get_or counts.now x 0) }
{
    // (`counts[from..to].iter().map(..).sum()` was tried: its proof, over the iterator's runs, did not close.)
    let mut sum: usize = 0;
    for x in from..to {
        sum += counts[x] as usize;
    }
    sum
}

// The lightest in line k of the counters from `from` below `to`, and of several the first.
fn lightest_of(weights: &[u16], lines: usize, k: usize, from: usize, to: usize) -> usize
    requires k_lt_lines { (k < lines) × (from < to) × (to ≤ max_counters) }
    requires lines_in_bounds { to * lines ≤ length weights.now }
    ensures { LightestIn (held weights.now lines k) from to result }
{
    // (The range is not empty, which `min_by_key` can't say: it gives an `Option`.)
    let mut best = from;
    let mut least = weight(weights, lines, k, from);
    for x in from + 1..to {
        let here = weight(weights, lines, k, x);
        if here < least {
            best = x;
            least = here;
        }
    }
    best
}

// What the counts from `from` below `to` lack of the minimum, put on the lightest of these counters in line k; gives
// what that weighs.
fn put_lacking(
    weights: &[u16],
    lines: usize,
    k: usize,
    from: usize,
    to: usize,
    minimum: usize,
    counts: &mut [Count],
) -> usize
    requires k_lt_lines { (k < lines) × (from < to) × (to ≤ max_counters) }
    requires lines_in_bounds { to * lines ≤ length weights.now }
    requires to_in_bounds { (to ≤ length counts.old) × (minimum < 65536) }
    ensures put_lacking { PutLacking (held weights.now lines k) from to minimum counts.old
        counts.new result }
    ensures upper_bound { result ≤ most_put }
{
    let sum = sum_over(counts, from, to);
    let y = lightest_of(weights, lines, k, from, to);
    if minimum <= sum {
        return 0;
    }
    let lacking = minimum - sum;
    let more = counts[y] as usize + lacking;
    counts[y] = more as Count;
    weight(weights, lines, k, y) * lacking
}

// What the counts lack of the minimum of the item whose first row is r, put on its lightest counter in line k; gives
// what that weighs.
fn put_item(
    ws: &[u16],
    s: Sizes,
    weights: &[u16],
    froms: &[u16],
    tos: &[u16],
    k: usize,
    r: usize,
    next: usize,
    counts: &mut [Count],
) -> usize
    requires weighable { Weighable ws.now s weights.now froms.now tos.now }
    requires k_lt_lines { (k < s.lines) × (r < s.badrows) × (counters_of ws.now s ≤ length counts.old) }
    requires next_value { next ≡ past_heads_of (bad_rows ws.now s) (r + 2) + 1 }
    requires has_counter { HasCounter ws.now s r }
    ensures counts_after { counts_in (counters_of ws.now s) counts.new ≡
        fill (program ws.now s) (tables ws.now s) (line_of ws.now s k)
        (item_from (bad_rows ws.now s) r)
        (counts_in (counters_of ws.now s) counts.old) }
    ensures grown { Grown (counters_of ws.now s) (line_of ws.now s k)
        (counts_in (counters_of ws.now s) counts.old)
        (counts_in (counters_of ws.now s) counts.new) result }
    ensures upper_bound { result ≤ most_put }
{
    let minimum = bad_number(ws, s, next - 1);
    let from = froms[r] as usize;
    let to = tos[r] as usize;
    put_lacking(weights, s.lines, k, from, to, minimum, counts)
}

// The item whose first row is r, and behind which row `next` is, is on a single letter: its letter's heads are named.
fn is_single(ws: &[u16], s: Sizes, r: usize, next: usize) -> bool
    requires whole { Whole ws.now s }
    requires r_lt_badrows { (r < s.badrows) × (next ≡ past_heads_of (bad_rows ws.now s) (r + 2) + 1) }
    ensures { result ≡ is_single_of (subject_from (bad_rows ws.now s) r) }
{
    next != r + 3 && bad_tag(ws, s, r + 1) != TAG_HEAD
}

// The item whose first row is r belongs to the pass: to that of the single letters, or to that of the groups.
fn is_in_pass(ws: &[u16], s: Sizes, r: usize, next: usize, single: bool) -> bool
    requires whole { Whole ws.now s }
    requires r_lt_badrows { (r < s.badrows) × (next ≡ past_heads_of (bad_rows ws.now s) (r + 2) + 1) }
    ensures { result ≡ in_pass single (subject_from (bad_rows ws.now s) r) }
{
    let named = is_single(ws, s, r, next);
    if single { named } else { !named }
}

// A weight with what one item adds.
fn weight_with(total: Weight, more: usize) -> Weight
    requires { (total ≤ 260 * most_put) × (more ≤ most_put) }
    ensures { result ≡ total + more }
{
    total + more as Weight
}

// The items of a pass, of the bad that stands at row r, put one after the other; gives what they add to the weight.
fn put_items(
    ws: &[u16],
    s: Sizes,
    weights: &[u16],
    froms: &[u16],
    tos: &[u16],
    k: usize,
    r: usize,
    single: bool,
    counts: &mut [Count],
) -> Weight
    requires weighable { Weighable ws.now s weights.now froms.now tos.now }
    requires k_lt_lines { (k < s.lines) × (r ≤ s.badrows) × (counters_of ws.now s ≤ length counts.old) }
    requires all_counted { AllCounted ws.now s r }
    ensures counts_after { counts_in (counters_of ws.now s) counts.new ≡
        fill_those (program ws.now s) (tables ws.now s) (line_of ws.now s k)
        (in_pass single) (items_at (bad_rows ws.now s) r)
        (counts_in (counters_of ws.now s) counts.old) }
    ensures grown { Grown (counters_of ws.now s) (line_of ws.now s k)
        (counts_in (counters_of ws.now s) counts.old)
        (counts_in (counters_of ws.now s) counts.new) result }
    ensures upper_bound { result ≤ 260 * most_put }
{
    // A walk from item to item, which are of several lengths: no index is counted.
    let mut i = r;
    let mut total: Weight = 0;
    loop {
        if bad_tag(ws, s, i) != TAG_CLASS {
            return total;
        }
        let next = next_item(ws, s, i);
        if is_in_pass(ws, s, i, next, single) {
            let more = put_item(ws, s, weights, froms, tos, k, i, next, counts);
            total = weight_with(total, more);
        }
        i = next;
    }
}

// What the bad that stands at row r weighs in line k, where each of its items has a counter. Nothing is promised of
// the counts afterwards.
pub fn least_weight(
    ws: &[u16],
    s: Sizes,
    n: usize,
    weights: &[u16],
    froms: &[u16],
    tos: &[u16],
    k: usize,
    r: usize,
    counts: &mut [Count],
) -> Weight
    requires weighable { Weighable ws.now s weights.now froms.now tos.now }
    requires n_value { n ≡ counters_of ws.now s }
    requires k_lt_lines { (k < s.lines) × (r ≤ s.badrows) × (n ≤ length counts.old) }
    requires all_counted { AllCounted ws.now s r }
    ensures { result ≡
        least_weight_of (program ws.now s) (tables ws.now s) (line_of ws.now s k)
        (items_at (bad_rows ws.now s) r) }
{
    clear(n, counts);
    let singles = put_items(ws, s, weights, froms, tos, k, r, true, counts);
    singles + put_items(ws, s, weights, froms, tos, k, r, false, counts)
}
