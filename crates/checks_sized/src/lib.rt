// The names that fit patterns in three sizes by the rows and names, so that a small message does not pay for a
// large one.
#![tactic(auto)]

pub mod verdict;

ghost use Rattle.std.specs.Prelude.{◌≡◌, ◌*◌, ◌≤◌, length};
ghost use Rattle.model.specs.Limits.{present};
ghost use Rattle.model.specs.Verify.{message_check, outcome};
ghost use Rattle.evidence.specs.Whole.{PartsWhole};
ghost use Rattle.values.specs.Values.{width};
ghost use Rattle.system_space.specs.Space.{words_after};
ghost use Rattle.stages.specs.Order.{taken};

use checks::order::words_verdict;
use model::{Sizes, Verdict};
use rooms::{FITTING_SETS, words64};

// Refusals 3 to 14, 16 to 18 and 22, over so many words for the names that fit patterns.
fn fitting_over<const WORDS: usize>(ws: &[u16], s: Sizes, lent: &mut [u32]) -> Result<(), Verdict>
    requires parts_whole { PartsWhole ws.now s }
    requires words_bound { (s.rows * width s.names ≤ WORDS) × (WORDS ≤ 65536) }
    ensures value { result ≡ outcome (message_check present (taken ws.now s) (length lent.old)) }
    ensures lent_after { lent.new ≡ words_after result ws.now s lent.old }
{
    let mut fitting = words64::<WORDS>();
    words_verdict(ws, s, &mut fitting, lent)
}

// All of these over the least scratch that fits, which that for `most` rows and names or more may be. It calls
// itself for the next size: each size has a frame of its own (DECISIONS 46).
pub fn sized_verdict(most: usize, ws: &[u16], s: Sizes, lent: &mut [u32]) -> Result<(), Verdict>
    requires le_most { 1 ≤ most }
    requires parts_whole { PartsWhole ws.now s }
    ensures value { result ≡ outcome (message_check present (taken ws.now s) (length lent.old)) }
    ensures lent_after { lent.new ≡ words_after result ws.now s lent.old }
{
    if most >= 1024 {
        return fitting_over::<FITTING_SETS>(ws, s, lent);
    }
    if s.rows <= most {
        if s.names <= most {
            if most <= 64 {
                return fitting_over::<130>(ws, s, lent);
            }
            if most <= 256 {
                return fitting_over::<1285>(ws, s, lent);
            }
        }
    }
    sized_verdict(4 * most, ws, s, lent)
}
