// The start and the bads under the ceilings: refusals 11 and 12.
#![tactic(auto)]

ghost use Rattle.std.specs.Prelude.{◌≡◌, ◌+◌, ◌*◌, ◌≤◌, ◌<◌, length};
ghost use Rattle.model.specs.Limits.{max_counters};
ghost use Rattle.model.specs.Index.{first};
ghost use Rattle.model.specs.Rows.{program};
ghost use Rattle.model.specs.Tables.{tables, state_index_of};
ghost use Rattle.model.specs.Closed.{start_state};
ghost use Rattle.model.specs.Bads.{bad_rows, met};
ghost use Rattle.model.specs.Markings.{sum_in};
ghost use Rattle.model.specs.Ceilings.{highest, ceilings_of, met_check_of, start_check_of};
ghost use Rattle.model.specs.Verify.{outcome};
ghost use Rattle.bads_rows.specs.Items.{BadsInForm, subject_from, items_at};
ghost use Rattle.ceilings_met.specs.Met.{Ready, bad_met};
ghost use Rattle.ceilings_met.specs.Sums.{counts_of, SumsOf, Summed};
ghost use Rattle.bits.specs.Bits.{Row};
ghost use Rattle.ceilings_form.specs.Parts.{Whole};
ghost use Rattle.ceilings.specs.Table.{held, LimitsTable};

use bads_rows::{bad_number, bad_row, bad_tag, next_bad, next_item};
use ceilings::{highest, limit};
use model::{Sizes, TAG_CLASS, Verdict};
use parts::ceilings_at;

// A sum of counts. The sum over 1,024 counters of 65,536 each passes 16 bits.
pub type Sum = u32;

// The sum of the highest counts under ceiling k over the counters up to x, from that over the counters before x.
fn sum_with(limits: &[u16], ceilings: usize, k: usize, x: usize, sum: usize) -> usize
    requires k_lt_ceilings { k < ceilings }
    requires row { Row limits.now ceilings x }
    requires x_lt_max_counters { (x < max_counters) × (sum ≤ x * 65536) }
    ensures value { result ≡ sum + highest (held limits.now ceilings k) x }
    ensures upper_bound { result ≤ sum + 65536 }
{
    sum + highest(limits, ceilings, k, x)
}

// The sums of the highest counts under ceiling k: word x has the sum over the counters below x. Counters that an item
// counts together stand together, so that two words give the sum of them, however many they are.
fn fill_sums(s: Sizes, n: usize, limits: &[u16], k: usize, sums: &mut [Sum])
    requires k_lt_ceilings { (k < s.ceilings) × (n ≤ max_counters) }
    requires ceilings_in_bounds { n * s.ceilings ≤ length limits.now }
    requires n_in_bounds { n < length sums.old }
    ensures { SumsOf (highest (held limits.now s.ceilings k)) n sums.new }
{
    let mut sum: usize = 0;
    for x in 0..n {
        sums[x] = sum as Sum;
        sum = sum_with(limits, s.ceilings, k, x, sum);
    }
    sums[n] = sum as Sum;
}

// The sum of the counts of the counters that the item at row r counts: exact, since no sum is cut to a word.
fn item_count(ws: &[u16], s: Sizes, froms: &[u16], tos: &[u16], sums: &[Sum], r: usize) -> usize
    requires summed { Summed ws.now s froms.now tos.now sums.now }
    requires r_lt_badrows { r < s.badrows }
    ensures { result ≡ sum_in (program ws.now s) (tables ws.now s)
        (counts_of sums.now) (subject_from (bad_rows ws.now s) r) }
{
    let from = froms[r] as usize;
    let to = tos[r] as usize;
    let below = sums[from] as usize;
    let all = sums[to] as usize;
    all - below
}

// The counts meet the bad that stands at row r: every item, up to the first row that is none.
fn meets(ws: &[u16], s: Sizes, froms: &[u16], tos: &[u16], sums: &[Sum], r: usize) -> bool
    requires summed { Summed ws.now s froms.now tos.now sums.now }
    requires r_le_badrows { r ≤ s.badrows }
    ensures { result ≡ met
        (sum_in (program ws.now s) (tables ws.now s) (counts_of sums.now))
        (items_at (bad_rows ws.now s) r) }
{
    // A walk from item to item, which are of several lengths: no index is counted.
    let mut i = r;
    loop {
        if bad_tag(ws, s, i) != TAG_CLASS {
            return true;
        }
        let next = next_item(ws, s, i);
        let least = bad_number(ws, s, next - 1);
        if item_count(ws, s, froms, tos, sums, i) < least {
            return false;
        }
        i = next;
    }
}

// The first bad below `upto` that the counts meet; `upto` where they meet none of them.
fn first_met(ws: &[u16], s: Sizes, froms: &[u16], tos: &[u16], sums: &[Sum], upto: usize) -> usize
    requires summed { Summed ws.now s froms.now tos.now sums.now }
    requires bads_in_form { BadsInForm ws.now s }
    requires upto_le_bads { upto ≤ s.bads }
    ensures { result ≡ first 0 upto (bad_met ws.now s (counts_of sums.now)) }
{
    let mut r: usize = 0;
    for j in 0..upto {
        if meets(ws, s, froms, tos, sums, r) {
            return j;
        }
        r = next_bad(ws, s, r);
    }
    upto
}

// Refusal 12: the first bad that some ceiling allows. The ceilings one after the other, each with its sums, and of each
// the bads before the first that one of those before it allows.
pub fn met_check(
    ws: &[u16],
    s: Sizes,
    n: usize,
    limits: &[u16],
    froms: &[u16],
    tos: &[u16],
    sums: &mut [Sum],
) -> Result<(), Verdict>
    requires ready { Ready ws.now s n limits.now froms.now tos.now }
    requires bads_in_form { BadsInForm ws.now s }
    requires n_in_bounds { n < length sums.old }
    ensures { result ≡
        outcome (met_check_of s (program ws.now s) (tables ws.now s)
        (ceilings_of ws.now s n) (bad_rows ws.now s)) }
{
    let mut least = s.bads;
    for k in 0..s.ceilings {
        fill_sums(s, n, limits, k, sums);
        least = first_met(ws, s, froms, tos, sums, least);
    }
    if least == s.bads {
        return Ok(());
    }
    let at = 4 + 2 * s.rows + 2;
    let here = at + bad_row(ws, s, least);
    Err(Verdict::Met(here))
}

// Refusal 11: some ceiling allows 1 at counter x0, that of the start; all other counts are 0.
pub fn start_check(ws: &[u16], s: Sizes, n: usize, limits: &[u16], x0: usize) -> Result<(), Verdict>
    requires whole { Whole ws.now s }
    requires n_le_max_counters { n ≤ max_counters }
    requires limits_table { LimitsTable (ceilings_of ws.now s n) limits.now }
    requires x0_value { x0 ≡ state_index_of (tables ws.now s) (start_state (program ws.now s)) }
    requires x0_lt_n { x0 < n }
    ensures { result ≡
        outcome (start_check_of s (program ws.now s) (tables ws.now s)
        (ceilings_of ws.now s n)) }
{
    for k in 0..s.ceilings {
        if 1 <= limit(limits, s.ceilings, k, x0) {
            return Ok(());
        }
    }
    Err(Verdict::Start(ceilings_at(s)))
}
