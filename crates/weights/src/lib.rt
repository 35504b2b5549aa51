// The table of weights, filled from the entries of the lines and read.
#![tactic(auto)]

ghost use Rattle.std.specs.Prelude.{◌≡◌, ◌≤◌, ◌<◌};
ghost use Rattle.model.specs.Limits.{omega_limit};
ghost use Rattle.model.specs.Weights.{weight_entries, lines_of};
ghost use Rattle.bits.specs.Bits.{Row};
ghost use Rattle.ceilings_form.specs.Parts.{Whole};
ghost use Rattle.ceilings.specs.Table.{held, BoundsRoom};
ghost use Rattle.weights_form.specs.Form.{WeightsInForm};
ghost use Rattle.weights.specs.Table.{WeightsTable, BeginsTable};

use ceilings::{fill_bounds, limit};
use model::Sizes;
use weights_form::weights_part;

// The weights of all lines, and where each begins. As many words as there are weights are lent blank. (Its twin for
// ceilings is `ceilings::fill_limits`: docs/ARCHITECTURE.md names both, and what they share is `fill_bounds`.)
pub fn fill_weights(ws: &[u16], s: Sizes, n: usize, weights: &mut [u16], starts: &mut [u16])
    requires whole { Whole ws.now s × (1 ≤ s.lines) × WeightsInForm ws.now s n }
    requires bounds_room { BoundsRoom n s.lines weights.old starts.old }
    ensures weights_table { WeightsTable (lines_of ws.now s n) weights.new }
    ensures begins_table { BeginsTable n (weight_entries ws.now s) s.lines starts.new }
{
    fill_bounds(ws, weights_part(s), n, s.lines, weights, starts);
}

// The weight of counter x in line k of so many: read as a limit is. (It stays a public function beside `limit`, for its
// must-fail edit and the words of its callers.)
pub fn weight(weights: &[u16], lines: usize, k: usize, x: usize) -> usize
    requires k_lt_lines { k < lines }
    requires row { Row weights.now lines x }
    ensures value { result ≡ held weights.now lines k x }
    ensures upper_bound { result ≤ omega_limit }
{
    limit(weights, lines, k, x)
}
