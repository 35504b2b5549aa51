// The table of limits, filled from the entries of the ceilings and read. Lines of weights have the form of ceilings, so
// one function fills the table of either.
#![tactic(auto)]

ghost use Rattle.std.specs.Prelude.{◌≡◌, ◌+◌, ◌≤◌, ◌<◌};
ghost use Rattle.model.specs.Limits.{omega_limit};
ghost use Rattle.model.specs.Ceilings.{ceiling_entries, ceilings_of, highest};
ghost use Rattle.bits.specs.Bits.{Row};
ghost use Rattle.ceilings_form.specs.Limits.{FormOf, InForm, StartsTable, ceiling_end, Stands};
ghost use Rattle.ceilings_form.specs.Parts.{Whole, PartHeld, part_entries};
ghost use Rattle.ceilings.specs.Table.{held, BoundsTable, LimitsTable, BoundsRoom};
ghost use Rattle.ceilings.specs.Table.{CeilingRoom, CeilingFilled};

use ceilings_form::entries::{Part, ceilings_part, entry_counter, entry_number};
use model::{OMEGA, Sizes};

// The numbers of ceiling k of so many, whose entries stand from e on, into the table; gives the entry after them.
fn fill_ceiling(
    ws: &[u16],
    part: Part,
    n: usize,
    count: usize,
    k: usize,
    e: usize,
    limits: &mut [u16],
) -> usize
    requires part_held { PartHeld ws.now part × Stands n (part_entries ws.now part) e }
    requires ceiling_room { CeilingRoom n count limits.old k }
    ensures value { result ≡ ceiling_end n (part_entries ws.now part) e }
    ensures ceiling_filled { CeilingFilled n (part_entries ws.now part) count k e limits.old
        limits.new }
{
    // Where the ceiling ends is not known before its last entry is read: a `for` has no end to count to.
    let mut i = e;
    loop {
        let x = entry_counter(ws, part, i);
        if x == n {
            return i + 1;
        }
        let at = x * count + k;
        limits[at] = entry_number(ws, part, i);
        i += 1;
    }
}

// The numbers of all ceilings of a part, `count` of them, and where each begins. As many words as there are numbers are
// lent blank.
pub fn fill_bounds(
    ws: &[u16],
    part: Part,
    n: usize,
    count: usize,
    limits: &mut [u16],
    starts: &mut [u16],
)
    requires part_held { PartHeld ws.now part × FormOf n (part_entries ws.now part) count }
    requires bounds_room { BoundsRoom n count limits.old starts.old }
    ensures bounds_table { BoundsTable n (part_entries ws.now part) count limits.new }
    ensures starts_table { StartsTable n (part_entries ws.now part) count starts.new }
{
    let mut e: usize = 0;
    for k in 0..count {
        starts[k] = e as u16;
        e = fill_ceiling(ws, part, n, count, k, e, limits);
    }
}

// The limits of all ceilings, and where each begins. (Its twin for lines is `weights::fill_weights`:
// docs/ARCHITECTURE.md names both, and what they share is `fill_bounds`.)
pub fn fill_limits(ws: &[u16], s: Sizes, n: usize, limits: &mut [u16], starts: &mut [u16])
    requires whole { Whole ws.now s × InForm ws.now s n }
    requires bounds_room { BoundsRoom n s.ceilings limits.old starts.old }
    ensures limits_table { LimitsTable (ceilings_of ws.now s n) limits.new }
    ensures starts_table { StartsTable n (ceiling_entries ws.now s) s.ceilings starts.new }
{
    fill_bounds(ws, ceilings_part(s), n, s.ceilings, limits, starts);
}

// The limit of counter x under ceiling k.
pub fn limit(limits: &[u16], ceilings: usize, k: usize, x: usize) -> usize
    requires k_lt_ceilings { k < ceilings }
    requires row { Row limits.now ceilings x }
    ensures value { result ≡ held limits.now ceilings k x }
    ensures upper_bound { result ≤ omega_limit }
{
    let at = x * ceilings + k;
    limits[at] as usize
}

// The highest count of counter x under ceiling k; past every limit where it is unbounded.
pub fn highest(limits: &[u16], ceilings: usize, k: usize, x: usize) -> usize
    requires k_lt_ceilings { k < ceilings }
    requires row { Row limits.now ceilings x }
    ensures value { result ≡ highest (held limits.now ceilings k) x }
    ensures upper_bound { result ≤ omega_limit + 1 }
{
    let most = limit(limits, ceilings, k, x);
    if most == OMEGA { OMEGA + 1 } else { most }
}
