// Sets of ceilings, for each counter and for one ceiling beside the others.
#![tactic(auto)]

ghost use Rattle.std.specs.Prelude.{◌≡◌, ◌&&◌, ◌||◌, ℕ, ◌+◌, ◌*◌, ◌≤◌, ◌<◌, ltb, length};
ghost use Rattle.model.specs.Limits.{max_ceilings, max_counters, omega_limit};
ghost use Rattle.model.specs.Ceilings.{ceiling_entries, ceiling_entry, ceilings_of};
ghost use Rattle.bits.specs.Bits.{bit, Row};
ghost use Rattle.masks.specs.Masks.{has};
ghost use Rattle.ceilings_form.specs.Limits.{InForm};
ghost use Rattle.ceilings_form.specs.Parts.{Whole};
ghost use Rattle.ceilings.specs.Table.{LimitsTable};
ghost use Rattle.ceilings_masks.specs.Compared.{reaches, allows, TwoPut, ThreePut, Holders};
ghost use Rattle.ceilings_masks.specs.Compared.{exceeds, exceeds_by_one, takes_more, MoreAt, Above, Beside};

use ceilings::{highest, limit};
use ceilings_form::entries::counter_at;
use masks::{Mask, and, below, load, none, or, store, without};
use model::{OMEGA, Sizes};
use steps::{as_limit, one_less, raised};

// The ceilings that one ceiling exceeds at a counter, at two of them and at three; those that hold one more than it at
// every counter that it limits, and those that do so at every letter that it limits.
#[derive(Clone, Copy)]
pub struct Over {
    pub once: Mask,
    pub twice: Mask,
    pub thrice: Mask,
    pub above: Mask,
    pub letters: Mask,
}

// How many of the ceilings stand in word i of a mask.
fn in_word(ceilings: usize, i: usize) -> usize
    requires { i < 4 }
    ensures upper_bound { (result ≤ 64) × (64 * i + result ≤ ceilings + 256) }
    ensures by_index { (j : ℕ) → j < result → 64 * i + j < ceilings }
    ensures by_index_2 { (j : ℕ) → result ≤ j → j < 64 → ceilings ≤ 64 * i + j }
{
    ceilings.saturating_sub(64 * i).min(64)
}

// Word i of the ceilings whose limit at counter x is `least` or more.
fn word_from(limits: &[u16], ceilings: usize, x: usize, least: usize, i: usize) -> u64
    requires i_bound { (i < 4) × (ceilings ≤ max_ceilings) }
    requires row { Row limits.now ceilings x }
    ensures { (j : ℕ) → j < 64 → bit result j ≡ reaches limits.now ceilings x least (64 * i + j) }
{
    let end = in_word(ceilings, i);
    let mut w = 0u64;
    for j in 0..end {
        let k = 64 * i + j;
        if limit(limits, ceilings, k, x) >= least {
            w |= 1u64 << j;
        }
    }
    w
}

// The ceilings whose limit at counter x is `least` or more.
fn limits_from(limits: &[u16], ceilings: usize, x: usize, least: usize) -> Mask
    requires ceilings_le_max_ceilings { ceilings ≤ max_ceilings }
    requires row { Row limits.now ceilings x }
    ensures { (k : ℕ) → k < 256 → has result k ≡ reaches limits.now ceilings x least k }
{
    let a = word_from(limits, ceilings, x, least, 0);
    let b = word_from(limits, ceilings, x, least, 1);
    let c = word_from(limits, ceilings, x, least, 2);
    let d = word_from(limits, ceilings, x, least, 3);
    Mask { a, b, c, d }
}

// The three sets of number i, one behind the other.
pub fn store_three(t: &mut [u64], i: usize, a: Mask, b: Mask, c: Mask)
    requires { i * 12 + 12 ≤ length t.old }
    ensures { ThreePut i (has a) (has b) (has c) t.old t.new }
{
    let first = 3 * i;
    let second = first + 1;
    let third = first + 2;
    store(t, first, a);
    store(t, second, b);
    store(t, third, c);
}

// For each of n counters the ceilings that hold it, those that hold two of it, and those where it is unbounded. (A
// limit is 1 most often, and one more than that is asked of every ceiling: so two is kept beside one.)
pub fn fill_holders(limits: &[u16], ceilings: usize, n: usize, holders: &mut [u64])
    requires ceilings_le_max_ceilings { (ceilings ≤ max_ceilings) × (n ≤ max_counters) }
    requires ceilings_in_bounds { n * ceilings ≤ length limits.now }
    requires n_in_bounds { n * 12 ≤ length holders.old }
    ensures { Holders limits.now ceilings n holders.new }
{
    for x in 0..n {
        let one = limits_from(limits, ceilings, x, 1);
        let two = limits_from(limits, ceilings, x, 2);
        let all = limits_from(limits, ceilings, x, OMEGA);
        store_three(holders, x, one, two, all);
    }
}

// The ceilings that allow a count at counter x.
pub fn allowing(
    limits: &[u16],
    ceilings: usize,
    n: usize,
    holders: &[u64],
    x: usize,
    count: usize,
) -> Mask
    requires holders { Holders limits.now ceilings n holders.now }
    requires x_lt_n { x < n }
    ensures { (k : ℕ) → k < 256 → has result k ≡ allows limits.now ceilings x count k }
{
    if count == 0 {
        return below(ceilings);
    }
    if count == 1 {
        let first = 3 * x;
        return load(holders, first);
    }
    if count == 2 {
        let second = 3 * x + 1;
        return load(holders, second);
    }
    if count >= OMEGA {
        let third = 3 * x + 2;
        return load(holders, third);
    }
    limits_from(limits, ceilings, x, count)
}

// Of the ceilings of a mask those that hold one more at counter x too, as `next` do; all where x is below `low`.
fn more_from(low: usize, above: Mask, x: usize, next: Mask) -> Mask
    ensures { MoreAt low x above next result }
{
    if x < low {
        return above;
    }
    and(above, next)
}

// What is known so far, and counter x more: m are exceeded there, and `next` hold one more there. The letters are the
// counters behind the states.
fn over_more(states: usize, o: Over, m: Mask, x: usize, next: Mask) -> Over
    ensures by_index { (k : ℕ) → has result.once k ≡ (has o.once k || has m k) }
    ensures by_index_2 { (k : ℕ) → has result.twice k ≡ (has o.twice k || has o.once k && has m k) }
    ensures by_index_3 { (k : ℕ) → has result.thrice k ≡ (has o.thrice k || has o.twice k && has m k) }
    ensures more_at { MoreAt 0 x o.above next result.above }
    ensures more_at_2 { MoreAt states x o.letters next result.letters }
{
    Over {
        once: or(o.once, m),
        twice: or(o.twice, and(o.once, m)),
        thrice: or(o.thrice, and(o.twice, m)),
        above: more_from(0, o.above, x, next),
        letters: more_from(states, o.letters, x, next),
    }
}

// The two sets of counter x beside ceiling k; gives the ceilings whose limit there it exceeds.
fn put_counter(
    limits: &[u16],
    ceilings: usize,
    n: usize,
    holders: &[u64],
    k: usize,
    x: usize,
    near: &mut [u64],
) -> Mask
    requires holders { Holders limits.now ceilings n holders.now }
    requires k_lt_ceilings { (k < ceilings) × (x < n) }
    requires n_in_bounds { n * 8 ≤ length near.old }
    ensures by_index { (j : ℕ) → j < 256 → has result j ≡ (ltb j ceilings && exceeds limits.now ceilings k j x) }
    ensures two_put { TwoPut x (exceeds_by_one limits.now ceilings k x)
        (takes_more limits.now ceilings k x) near.old near.new }
{
    let most = highest(limits, ceilings, k, x);
    let held = allowing(limits, ceilings, n, holders, x, most);
    let fewer = allowing(limits, ceilings, n, holders, x, one_less(most));
    let next = allowing(
        limits,
        ceilings,
        n,
        holders,
        x,
        raised(as_limit(most)) as usize,
    );
    let first = 2 * x;
    let second = first + 1;
    store(near, first, without(fewer, held));
    store(near, second, next);
    without(below(ceilings), held)
}

// Ceiling k, whose entries stand from e on, beside all others: where it exceeds them, which hold more, and the two sets
// of each of its counters.
pub fn compare(
    ws: &[u16],
    s: Sizes,
    n: usize,
    limits: &[u16],
    holders: &[u64],
    k: usize,
    e: usize,
    near: &mut [u64],
) -> Over
    requires whole { Whole ws.now s }
    requires in_form { InForm ws.now s n }
    requires limits_table { LimitsTable (ceilings_of ws.now s n) limits.now }
    requires holders { Holders limits.now s.ceilings n holders.now }
    requires k_lt_ceilings { (k < s.ceilings) × (e ≡ ceiling_entry n (ceiling_entries ws.now s) k) }
    requires n_in_bounds { n * 8 ≤ length near.old }
    ensures beside { Beside limits.now s.ceilings n k holders.now result near.new }
    ensures above { Above limits.now s.ceilings s.states n k result }
{
    let mut over = Over {
        once: none(),
        twice: none(),
        thrice: none(),
        above: below(256),
        letters: below(256),
    };
    // Where the ceiling ends is not known before its last entry is read: a `for` has no end to count to.
    let mut i = e;
    loop {
        let x = counter_at(ws, s, i);
        if x == n {
            return over;
        }
        let m = put_counter(limits, s.ceilings, n, holders, k, x, near);
        let second = 2 * x + 1;
        over = over_more(s.states, over, m, x, load(near, second));
        i += 1;
    }
}
