// The entries of the lines of weights in form, refusal 16.
#![tactic(auto)]

ghost use Rattle.std.specs.Prelude.{◌≡◌, ◌≤◌};
ghost use Rattle.model.specs.Limits.{present, max_counters};
ghost use Rattle.model.specs.Weights.{weight_check_of};
ghost use Rattle.model.specs.Verify.{outcome};
ghost use Rattle.model.specs.Demands.{WithinLimits};
ghost use Rattle.ceilings_form.specs.Parts.{Whole};
ghost use Rattle.weights_form.specs.Form.{weights_part_of};

use ceilings_form::entries::{Part, first_wrong};
use model::{MAX_WEIGHT, Sizes, Verdict};
use parts::weights_at;

// Where the entries of the lines stand.
pub fn weights_part(s: Sizes) -> Part
    requires { WithinLimits present s }
    ensures { result ≡ weights_part_of s }
{
    let at = weights_at(s) + 2;
    Part {
        at,
        size: s.weights,
    }
}

// Refusal 16: lines are ceilings whose numbers are at most 1,000. (What it shares with refusal 10 is `first_wrong`;
// part, count, most and verdict differ.)
pub fn weight_check(ws: &[u16], s: Sizes, n: usize) -> Result<(), Verdict>
    requires whole { Whole ws.now s }
    requires le_lines { 1 ≤ s.lines }
    requires n_le_max_counters { n ≤ max_counters }
    ensures { result ≡ outcome (weight_check_of ws.now s n) }
{
    let part = weights_part(s);
    match first_wrong(ws, part, s.lines, MAX_WEIGHT, n) {
        None => Ok(()),
        Some(e) => {
            let here = part.at + e;
            Err(Verdict::Weights(here))
        }
    }
}
