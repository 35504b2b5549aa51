// Entries of ceilings and of lines of weights, as the words of the message have them: one reader and one test of form
// for both; refusal 10.
ghost use Rattle.std.specs.Prelude.{◌≡◌, ◌≤◌};
ghost use Rattle.model.specs.Limits.{present, max_counters};
ghost use Rattle.model.specs.Words.{left, right};
ghost use Rattle.model.specs.Reader.{first_wrong_of};
ghost use Rattle.model.specs.Ceilings.{ceiling_entries, ceilings_ahead, ceiling_check_of};
ghost use Rattle.model.specs.Verify.{outcome};
ghost use Rattle.model.specs.Demands.{WithinLimits};
ghost use Rattle.ceilings_form.specs.Parts.{Whole, PartHeld, part_entries, ceilings_part_of, told};
ghost use Rattle.model.specs.Weights.{bound_step};
ghost use Rattle.ceilings_form.specs.Bounds.{is_in_bound};

use model::{OMEGA, Sizes, Verdict};
use parts::ceilings_at;
use program::rows::{cell, column};

// Where entries stand: `size` counter numbers from word `at`, and behind these as many numbers.
#[derive(Clone, Copy)]
pub struct Part {
    pub at: usize,
    pub size: usize,
}

// The counter number of entry e of a part, and 0 past the last entry.
pub fn entry_counter(ws: &[u16], part: Part, e: usize) -> usize
    requires { PartHeld ws.now part }
    ensures { result ≡ left (part_entries ws.now part) e }
{
    column(ws, part.size, part.at, e)
}

// The number of entry e of a part, a limit or a weight, and 0 past the last entry.
pub fn entry_number(ws: &[u16], part: Part, e: usize) -> u16
    requires { PartHeld ws.now part }
    ensures { result ≡ right (part_entries ws.now part) e }
{
    cell(ws, part.size, part.at + part.size, e)
}

// An entry of a ceiling or of a line that goes on.
fn in_bound(n: usize, most: usize, least: usize, x: usize, number: u16) -> bool
    ensures { result ≡ is_in_bound n most least x number }
{
    least <= x && (x < n && (1 <= number && number as usize <= most))
}

// The first wrong entry of a part, if one is. One pass with the least counter number allowed and the closing entries so
// far: `count` of them are wanted, and no number is above `most`.
pub fn first_wrong(ws: &[u16], part: Part, count: usize, most: usize, n: usize) -> Option<usize>
    requires part_held { PartHeld ws.now part }
    requires n_le_max_counters { n ≤ max_counters }
    ensures { told result ≡
        first_wrong_of (bound_step n most) (part_entries ws.now part) (ceilings_ahead count) }
{
    let mut least: usize = 0;
    let mut closed: usize = 0;
    for e in 0..part.size {
        if closed == count {
            return Some(e);
        }
        let x = entry_counter(ws, part, e);
        let number = entry_number(ws, part, e);
        if x == n {
            if number != 0 {
                return Some(e);
            }
            closed += 1;
            least = 0;
        } else {
            if !in_bound(n, most, least, x, number) {
                return Some(e);
            }
            least = x + 1;
        }
    }
    if closed < count {
        return Some(part.size);
    }
    None
}

// Where the entries of the ceilings stand. (Its twin for lines, `weights_form::weights_part`, differs in both numbers:
// there is nothing that one function could share.)
pub fn ceilings_part(s: Sizes) -> Part
    requires { WithinLimits present s }
    ensures { result ≡ ceilings_part_of s }
{
    let at = ceilings_at(s) + 2;
    Part {
        at,
        size: s.entries,
    }
}

// The counter number of entry e of the ceilings, and 0 past the last entry.
pub fn counter_at(ws: &[u16], s: Sizes, e: usize) -> usize
    requires { Whole ws.now s }
    ensures { result ≡ left (ceiling_entries ws.now s) e }
{
    entry_counter(ws, ceilings_part(s), e)
}

// Refusal 10: a limit is any number that a word holds. (What it shares with refusal 16 is `first_wrong`; part, count,
// most and verdict differ.)
pub fn ceiling_check(ws: &[u16], s: Sizes, n: usize) -> Result<(), Verdict>
    requires whole { Whole ws.now s }
    requires n_le_max_counters { n ≤ max_counters }
    ensures { result ≡ outcome (ceiling_check_of ws.now s n) }
{
    let part = ceilings_part(s);
    match first_wrong(ws, part, s.ceilings, OMEGA, n) {
        None => Ok(()),
        Some(e) => {
            let here = part.at + e;
            Err(Verdict::Ceiling(here))
        }
    }
}
