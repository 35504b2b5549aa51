// Refusal 17: a rule raises a line's weighed sum. The rules are counted on the way.
#![tactic(auto)]

ghost use Rattle.std.specs.Prelude.{◌≡◌, ◌+◌, ◌≤◌, length, get_or, eqb};
ghost use Rattle.model.specs.declared.Verdict.TheVariants.{Rise};
ghost use Rattle.model.specs.Limits.{present};
ghost use Rattle.model.specs.Index.{first};
ghost use Rattle.model.specs.Verdict.{unless};
ghost use Rattle.model.specs.Message.{weights_offset};
ghost use Rattle.model.specs.Rows.{program};
ghost use Rattle.model.specs.Tables.{tables};
ghost use Rattle.model.specs.Counters.{counter_count};
ghost use Rattle.model.specs.Rules.{rules};
ghost use Rattle.model.specs.Weights.{lines_of, raised, rise_check_of};
ghost use Rattle.model.specs.Verify.{outcome};
ghost use Rattle.model.specs.Demands.{WithinLimits};
ghost use Rattle.rules.specs.Derived.{RuleRoom};
ghost use Rattle.rule_tables.specs.Joined.{JoinedTables};
ghost use Rattle.system_totals.specs.Lines.{Totalled};
ghost use Rattle.weights.specs.Table.{WeightsTable};
ghost use Rattle.weights_rise.specs.Rises.{WeightsReady};

use model::{Sizes, Verdict};
use onward::guess_class;
use parts::weights_at;
use rule_tables::rules_of;
use steps::effect_kind;
use system_totals::{Totals, row_total, state_head};
use weights_change::first_raised_by;

// How many rules and rows there are, and the first line that a rule raises; the number of lines where none is raised.
// (That is the model's `first`, and the bound below which the next state is tested: an `Option` would be taken apart
// for either.)
#[derive(Clone, Copy)]
struct Risen {
    totals: Totals,
    line: usize,
}

// The states one after the other, each with all its rules: a line is tested only below the first one raised so far.
fn raised_line(
    ws: &[u16],
    s: Sizes,
    narrow: &[u16],
    fitting: &[u64],
    names: &[u64],
    letters: &[u64],
    n: usize,
    weights: &[u16],
    at: &mut [u16],
    tos: &mut [u16],
    others: &mut [u16],
) -> Risen
    requires joined_tables { JoinedTables ws.now s narrow.now fitting.now names.now letters.now }
    requires weights_table { WeightsTable (lines_of ws.now s n) weights.now }
    requires n_value { n ≡ counter_count (program ws.now s) (tables ws.now s) }
    requires rule_room { RuleRoom ws.now s tos.old others.old × (length tos.old ≤ 65536) }
    ensures line_value { result.line ≡ first 0 s.lines (λ k. raised ((lines_of ws.now s n).weight k)
        (rules (program ws.now s) (tables ws.now s))) }
    ensures line_le_lines { result.line ≤ s.lines }
    ensures totalled { Totalled (program ws.now s) (tables ws.now s) result.totals }
{
    let mut line = s.lines;
    let mut rules = 0;
    let mut rows = 0;
    for i in 0..s.states {
        guess_class(ws, s, at, i);
        let m = rules_of(ws, s, narrow, fitting, names, letters, at, i, tos, others);
        let head = state_head(ws, s, i);
        rules += m;
        rows += row_total(head, m);
        let kind = effect_kind(head);
        line = first_raised_by(weights, s.lines, n, line, kind, tos, others, m, i);
    }
    let totals = Totals { rules, rows };
    Risen { totals, line }
}

// The place of the first line raised: its first entry.
fn verdict_at(s: Sizes, starts: &[u16], line: usize) -> Result<(), Verdict>
    requires within_limits { WithinLimits present s }
    requires line_le_lines { (line ≤ s.lines) × (s.lines ≤ length starts.now) }
    ensures { result ≡
        outcome (unless (eqb line s.lines) (Rise (weights_offset s + 2 + get_or starts.now line 0))) }
{
    if line == s.lines {
        return Ok(());
    }
    let first = starts[line] as usize;
    let place = weights_at(s) + 2 + first;
    Err(Verdict::Rise(place))
}

// The totals of the rules, refused or not, and refusal 17: the first line that a rule raises, at its first entry.
// Nothing is promised of the guesses and of the lists of rules afterwards.
pub fn rise_check(
    ws: &[u16],
    s: Sizes,
    narrow: &[u16],
    fitting: &[u64],
    names: &[u64],
    letters: &[u64],
    n: usize,
    weights: &[u16],
    starts: &[u16],
    at: &mut [u16],
    tos: &mut [u16],
    others: &mut [u16],
) -> (Totals, Result<(), Verdict>)
    requires joined_tables { JoinedTables ws.now s narrow.now fitting.now names.now letters.now }
    requires weights_ready { WeightsReady ws.now s n weights.now starts.now }
    requires rule_room { RuleRoom ws.now s tos.old others.old × (length tos.old ≤ 65536) }
    ensures value { result.1 ≡
        outcome (rise_check_of ws.now s (lines_of ws.now s n)
        (rules (program ws.now s) (tables ws.now s))) }
    ensures totalled { Totalled (program ws.now s) (tables ws.now s) result.0 }
{
    let risen = raised_line(
        ws, s, narrow, fitting, names, letters, n, weights, at, tos, others,
    );
    let raised = verdict_at(s, starts, risen.line);
    (risen.totals, raised)
}
