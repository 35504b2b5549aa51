// The tables that the rules of a state are read from: four of words stand one behind the other in one lent slice, each
// with room for any message, so that whoever needs rules hands on one slice and not four.
#![tactic(auto)]

ghost use Rattle.std.specs.Prelude.{◌≡◌, Bool, true, ℕ, ◌+◌, ◌≤◌, ◌<◌, length, get_or};
ghost use Rattle.bits.specs.Bits.{Row, Filled};
ghost use Rattle.model.specs.Limits.{present};
ghost use Rattle.model.specs.Demands.{WithinLimits};
ghost use Rattle.model.specs.Rows.{program};
ghost use Rattle.model.specs.Tables.{tables};
ghost use Rattle.system_letters.specs.Letters.{letter_width_of};
ghost use Rattle.rules.specs.Derived.{RuleRoom};
ghost use Rattle.rules.specs.Listed.{StateRules};
ghost use Rattle.rules.specs.Within.{AskedLetters, RulesWithin};
ghost use Rattle.rule_tables.specs.Joined.{letter_from, JoinedTables, Joined};

use matching_names::name_width;
use model::Sizes;
use rooms::ROW_ROOM;
use state_rules::{rules_within, state_rules};

// Each table has as many words as `rooms` gives for the rows. At the front stands where expressions and patterns end;
// from here on where the flow of each name begins.
pub const FLOW_AT: usize = ROW_ROOM;

// From here on stand the branches of each state that may match.
pub const BRANCHES: usize = 2 * ROW_ROOM;

// From here on stands where the letters of each class begin.
pub const LETTER_AT: usize = 3 * ROW_ROOM;

// The first n words of a, put from word p of t on. (Word by word: of the library's `copy_from_slice` LLVM makes a call
// of `memmove`, and the archive for C asks for `memcpy` and `memset` alone from outside, as its header says.)
fn copy_words(t: &mut [u16], a: &[u16], p: usize, n: usize)
    requires { (p + n ≤ length t.old) × (n ≤ length a.now) }
    ensures { Filled t.old t.new p n (λ j. get_or a.now j 0) }
{
    for j in 0..n {
        t[p + j] = a[j];
    }
}

// Where flow begins and the branches that may match, put into their places; all words before them stay.
pub fn join_tables(s: Sizes, flow_at: &[u16], branches: &[u16], narrow: &mut [u16])
    requires within_limits { WithinLimits present s }
    requires names_in_bounds { (s.names < length flow_at.now) × (s.states ≤ length branches.now) }
    requires letter_from_in_bounds { letter_from ≤ length narrow.old }
    ensures { Joined s flow_at.now branches.now narrow.old
        narrow.new }
{
    let starts = s.names + 1;
    copy_words(narrow, flow_at, FLOW_AT, starts);
    copy_words(narrow, branches, BRANCHES, s.states);
}

// The rules of state i, as `state_rules` gives them.
pub fn rules_of(
    ws: &[u16],
    s: Sizes,
    narrow: &[u16],
    fitting: &[u64],
    names: &[u64],
    letters: &[u64],
    at: &[u16],
    i: usize,
    tos: &mut [u16],
    others: &mut [u16],
) -> usize
    requires joined_tables { JoinedTables ws.now s narrow.now fitting.now names.now letters.now }
    requires i_lt_states { i < s.states }
    requires rule_room { RuleRoom ws.now s tos.old others.old }
    ensures { StateRules (program ws.now s) (tables ws.now s) i tos.new
        others.new result }
{
    let w = name_width(s);
    let flow_at = &narrow[FLOW_AT..];
    let branches = &narrow[BRANCHES..];
    let letter_at = &narrow[LETTER_AT..];
    state_rules(
        ws, s, narrow, flow_at, w, fitting, names, letter_at, letters, branches, at, i, tos, others,
    )
}

// The rules of state i, but of those of a receive or a send only the ones that read or put a letter of the set
// `within`, as `rules_within` gives them.
pub fn rules_within_of(
    ws: &[u16],
    s: Sizes,
    narrow: &[u16],
    fitting: &[u64],
    names: &[u64],
    letters: &[u64],
    at: &[u16],
    i: usize,
    within: &[u64],
    tos: &mut [u16],
    others: &mut [u16],
) -> usize
    requires joined_tables { JoinedTables ws.now s narrow.now fitting.now names.now letters.now }
    requires i_lt_states { i < s.states }
    requires row { Row within.now (letter_width_of (program ws.now s) (tables ws.now s)) 0 }
    requires rule_room { RuleRoom ws.now s tos.old others.old }
    ensures { (f : ℕ → Bool) →
        AskedLetters (program ws.now s) (tables ws.now s) true within.now f →
        RulesWithin (program ws.now s) (tables ws.now s) f i tos.new
        others.new result }
{
    let w = name_width(s);
    let flow_at = &narrow[FLOW_AT..];
    let branches = &narrow[BRANCHES..];
    let letter_at = &narrow[LETTER_AT..];
    rules_within(
        ws, s, narrow, flow_at, w, fitting, names, letter_at, letters, branches, at, i, within,
        tos, others,
    )
}
