// The rules of a state as one: the ceilings that are open at every counter to which one of them adds. A ceiling is open
// from `low` on at a counter: it has no bound there if the counter is below `low`, and holds one there if it is not.
#![tactic(auto)]

ghost use Rattle.std.specs.Prelude.{◌≡◌, true, ◌&&◌, ℕ, ◌+◌, ◌*◌, ◌≤◌, ◌<◌, length};
ghost use Rattle.model.specs.Index.{any, all};
ghost use Rattle.bits.specs.Bits.{member};
ghost use Rattle.masks.specs.Masks.{has};
ghost use Rattle.ceilings_masks.specs.Compared.{Holders};
ghost use Rattle.ceilings_groups.specs.Groups.{AllowedAt, OpenStep, OpenAll, SetsOpen};
ghost use Rattle.ceilings_groups.specs.Groups.{GroupPut, in_sets};

use ceilings_masks::{Over, store_three};
use masks::{Mask, and, below, is_none, load, none, or};

// Ceilings that are open from `low` on at counter y; all where it is none of the n.
fn open_at(limits: &[u16], ceilings: usize, n: usize, holders: &[u64], low: usize, y: usize) -> Mask
    requires { Holders limits.now ceilings n holders.now }
    ensures { (k : ℕ) → k < 256 → has result k ≡ true → AllowedAt limits.now ceilings n low k y }
{
    if n <= y {
        return below(256);
    }
    if low <= y {
        let first = 3 * y;
        return load(holders, first);
    }
    let third = 3 * y + 2;
    load(holders, third)
}

// Of the ceilings of a mask those that are open from `low` on where a rule of this kind adds: where it leads, and what
// it puts or starts. None where these are one counter, which then gets two.
fn narrowed(
    all: Mask,
    limits: &[u16],
    ceilings: usize,
    n: usize,
    holders: &[u64],
    low: usize,
    kind: usize,
    to: usize,
    other: usize,
) -> Mask
    requires { Holders limits.now ceilings n holders.now }
    ensures by_index { (k : ℕ) → has result k ≡ true → has all k ≡ true }
    ensures by_index_2 { (k : ℕ) → k < 256 → has result k ≡ true → OpenStep limits.now ceilings n low k kind to other }
{
    let at_to = and(all, open_at(limits, ceilings, n, holders, low, to));
    if kind < 2 {
        return at_to;
    }
    if to == other {
        return none();
    }
    and(at_to, open_at(limits, ceilings, n, holders, low, other))
}

// Ceilings without a bound where the m rules add, all of one kind: where they lead, and what they put or start.
fn open_to_all(
    limits: &[u16],
    ceilings: usize,
    n: usize,
    holders: &[u64],
    kind: usize,
    tos: &[u16],
    others: &[u16],
    m: usize,
) -> Mask
    requires holders { Holders limits.now ceilings n holders.now }
    requires m_in_bounds { (m ≤ length tos.now) × (m ≤ length others.now) }
    ensures { OpenAll limits.now ceilings n n kind tos.now others.now m (has result) }
{
    let mut all = below(256);
    for j in 0..m {
        let to = tos[j] as usize;
        let other = others[j] as usize;
        all = narrowed(all, limits, ceilings, n, holders, n, kind, to, other);
    }
    all
}

// Ceilings without a bound where the rules of a state add; without a bound at states and with one at letters; and with
// one.
#[derive(Clone, Copy)]
struct Sets {
    free: Mask,
    lettered: Mask,
    held: Mask,
}

// The three sets of m rules, all of one kind. Made in one loop: what is looked up for one set serves the others.
// (`open_to_all` makes the first alone, a third of the work; one function for both would go over the rules once for
// each set.)
fn sets_to_all(
    limits: &[u16],
    ceilings: usize,
    states: usize,
    n: usize,
    holders: &[u64],
    kind: usize,
    tos: &[u16],
    others: &[u16],
    m: usize,
) -> Sets
    requires holders { Holders limits.now ceilings n holders.now }
    requires m_in_bounds { (m ≤ length tos.now) × (m ≤ length others.now) }
    ensures { SetsOpen limits.now ceilings states n kind tos.now others.now m
        (has result.free) (has result.lettered) (has result.held) }
{
    let mut free = below(256);
    let mut lettered = below(256);
    let mut held = below(256);
    for j in 0..m {
        let to = tos[j] as usize;
        let other = others[j] as usize;
        free = narrowed(free, limits, ceilings, n, holders, n, kind, to, other);
        lettered = narrowed(
            lettered, limits, ceilings, n, holders, states, kind, to, other,
        );
        held = narrowed(held, limits, ceilings, n, holders, 0, kind, to, other);
    }
    Sets {
        free,
        lettered,
        held,
    }
}

// The three sets of state i, whose m rules are all of this kind, one behind the other. The second and third are empty
// where some ceiling has no bound at all: that one is open to every rule and left beside every ceiling, so that they
// would settle nothing more.
pub fn put_group(
    boundless: bool,
    limits: &[u16],
    ceilings: usize,
    states: usize,
    n: usize,
    holders: &[u64],
    kind: usize,
    tos: &[u16],
    others: &[u16],
    m: usize,
    i: usize,
    group: &mut [u64],
)
    requires holders { Holders limits.now ceilings n holders.now }
    requires m_in_bounds { (m ≤ length tos.now) × (m ≤ length others.now) }
    requires i_in_bounds { i * 12 + 12 ≤ length group.old }
    ensures { GroupPut limits.now ceilings states n kind tos.now others.now m
        i group.old group.new }
{
    if boundless {
        let free = open_to_all(limits, ceilings, n, holders, kind, tos, others, m);
        store_three(group, i, free, none(), none());
        return;
    }
    let sets = sets_to_all(limits, ceilings, states, n, holders, kind, tos, others, m);
    store_three(group, i, sets.free, sets.lettered, sets.held);
}

// Some ceiling has no bound at any of the n counters.
pub fn is_boundless(holders: &[u64], n: usize) -> bool
    requires { n * 12 ≤ length holders.now }
    ensures { result ≡ any 0 256 (λ k. all 0 n (λ x. member holders.now 4 (3 * x + 2) k)) }
{
    let mut left = below(256);
    for x in 0..n {
        let third = 3 * x + 2;
        left = and(left, load(holders, third));
    }
    !is_none(left)
}

// Some ceiling of the mask is in the first set of state i; or in the second, and in `letters`; or in the third, and in
// `above`.
pub fn settled(left: Mask, over: Over, group: &[u64], i: usize) -> bool
    requires { i * 12 + 12 ≤ length group.now }
    ensures { result ≡ any 0 256 (λ k. has left k && in_sets over group.now i k) }
{
    let first = 3 * i;
    let second = 3 * i + 1;
    let third = 3 * i + 2;
    let lettered = and(over.letters, load(group, second));
    let raised = and(over.above, load(group, third));
    !is_none(and(left, or(load(group, first), or(lettered, raised))))
}
