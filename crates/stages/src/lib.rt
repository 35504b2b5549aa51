// Refusals 10 or 16, 11, 12 and 18, each with the tables that it alone needs.
#![tactic(auto)]

ghost use Rattle.std.specs.Prelude.{◌≡◌, ◌≤◌, ◌<◌, length};
ghost use Rattle.model.specs.Rows.{program};
ghost use Rattle.model.specs.Bads.{bad_rows};
ghost use Rattle.model.specs.Tables.{tables, state_index_of};
ghost use Rattle.model.specs.Closed.{start_state};
ghost use Rattle.model.specs.Ceilings.{ceilings_of, start_check_of, met_check_of};
ghost use Rattle.model.specs.Weights.{lines_of, light_check_of};
ghost use Rattle.model.specs.Limits.{max_counters};
ghost use Rattle.model.specs.Verify.{outcome};
ghost use Rattle.lists.specs.Ready.{Ready};
ghost use Rattle.layout.specs.Tables.{Ends};
ghost use Rattle.ceilings_form.specs.Parts.{Whole};
ghost use Rattle.ceilings.specs.Table.{LimitsTable};
ghost use Rattle.bads_rows.specs.Items.{BadsInForm};
ghost use Rattle.weights.specs.Table.{WeightsTable};
ghost use Rattle.system_items.specs.Stretches.{LettersFilled};
ghost use Rattle.stages.specs.Order.{form_check};
ghost use Rattle.stages.specs.Scratch.{Counted, Startable};

use ceilings_form::entries::ceiling_check;
use ceilings_met::{Sum, met_check, start_check};
use lists::state_index;
use model::{Sizes, Verdict};
use opening::start;
use rooms::words16;
use system_items::fill_items;
use weights_form::weight_check;
use weights_least::Count;
use weights_light::light_check;

// Refusal 10, or 16 where the message has lines of weights.
pub fn form_verdict(ws: &[u16], s: Sizes, n: usize) -> Result<(), Verdict>
    requires whole { Whole ws.now s }
    requires n_le_max_counters { n ≤ max_counters }
    ensures { result ≡ outcome (form_check ws.now s n) }
{
    if s.lines == 0 {
        return ceiling_check(ws, s, n);
    }
    weight_check(ws, s, n)
}

// The counter of the start.
fn start_counter(ws: &[u16], s: Sizes, afters: &[u16]) -> usize
    requires ready { Ready ws.now s }
    requires ends { Ends (program ws.now s) afters.now }
    ensures { result ≡ state_index_of (tables ws.now s) (start_state (program ws.now s)) }
{
    let first = start(ws, s, afters);
    state_index(ws, s, s.rows, first, s.rows)
}

// Refusal 11, by the counter of the start.
pub fn start_verdict(
    ws: &[u16],
    s: Sizes,
    afters: &[u16],
    n: usize,
    limits: &[u16],
) -> Result<(), Verdict>
    requires startable { Startable ws.now s afters.now n }
    requires limits_table { LimitsTable (ceilings_of ws.now s n) limits.now }
    ensures { result ≡
        outcome (start_check_of s (program ws.now s) (tables ws.now s)
        (ceilings_of ws.now s n)) }
{
    let counter = start_counter(ws, s, afters);
    start_check(ws, s, n, limits, counter)
}

// Refusal 12, by the counters of the bads' items.
pub fn met_verdict(
    ws: &[u16],
    s: Sizes,
    letter_at: &[u16],
    letters: &[u64],
    n: usize,
    limits: &[u16],
    sums: &mut [Sum],
) -> Result<(), Verdict>
    requires letters_filled { LettersFilled ws.now s letter_at.now letters.now × BadsInForm ws.now s }
    requires counted { Counted ws.now s n × LimitsTable (ceilings_of ws.now s n) limits.now }
    requires n_in_bounds { n < length sums.old }
    ensures { result ≡
        outcome (met_check_of s (program ws.now s) (tables ws.now s)
        (ceilings_of ws.now s n) (bad_rows ws.now s)) }
{
    let mut froms = words16::<258>();
    let mut tos = words16::<258>();
    fill_items(ws, s, letter_at, letters, &mut froms, &mut tos);
    met_check(ws, s, n, limits, &froms, &tos, sums)
}

// Refusal 18, by the counter of the start and the counters of the bads' items.
pub fn light_verdict(
    ws: &[u16],
    s: Sizes,
    afters: &[u16],
    letter_at: &[u16],
    letters: &[u64],
    n: usize,
    weights: &[u16],
    counts: &mut [Count],
) -> Result<(), Verdict>
    requires startable { Startable ws.now s afters.now n }
    requires letters_filled { LettersFilled ws.now s letter_at.now letters.now × BadsInForm ws.now s }
    requires weights_table { WeightsTable (lines_of ws.now s n) weights.now × (n ≤ length counts.old) }
    ensures { result ≡
        outcome (light_check_of s (program ws.now s) (tables ws.now s)
        (lines_of ws.now s n) (bad_rows ws.now s)) }
{
    let counter = start_counter(ws, s, afters);
    let mut froms = words16::<258>();
    let mut tos = words16::<258>();
    fill_items(ws, s, letter_at, letters, &mut froms, &mut tos);
    light_check(ws, s, n, weights, &froms, &tos, counter, counts)
}
