// The rules of a state, all at once: where they lead, and the other counter. All rules of a state are of one kind.
#![tactic(auto)]

ghost use Rattle.std.specs.Prelude.{◌≡◌, Bool, true, ℕ, ◌<◌, option_copied};
ghost use Rattle.bits.specs.Bits.{Row};
ghost use Rattle.model.specs.Rows.{program, send, receive};
ghost use Rattle.model.specs.Tables.{tables, state_at};
ghost use Rattle.model.specs.Rules.{state_rules_of};
ghost use Rattle.rules.specs.Listed.{StateRules};
ghost use Rattle.rules.specs.Added.{Added};
ghost use Rattle.rules.specs.Derived.{RuleRoom, RuleTables};
ghost use Rattle.rules.specs.Within.{only_passing, AskedLetters, AskedOf, RulesWithin};
ghost use Rattle.system_letters.specs.Letters.{letter_width_of};
ghost use Rattle.state_rules.specs.Heads.{SendTables, ReceiveTables, LetteredState};

use lettered_rules::{read_rules, sent_rules};
use lists::{flow_value, state_class, state_location, word};
use model::{Sizes, TAG_CALL, TAG_CASE, TAG_GIVE, TAG_RECEIVE, TAG_SEND, TAG_SPAWN};
use plain_rules::{
    behind, call_rules, case_rules, give_rules, may_match, onto, rest_rules, spawn_rules,
};
use positions::branch_body;
use program::rows::{num, tag};
use system_letters::LETTER_WORDS;

// A send: each class that the target may be, by the letters of the message; where that is asked for, of the set
// `within` only.
fn send_rules(
    ws: &[u16],
    s: Sizes,
    afters: &[u16],
    flow_at: &[u16],
    letter_at: &[u16],
    letters: &[u64],
    at: &[u16],
    i: usize,
    r: usize,
    within: Option<&[u64]>,
    tos: &mut [u16],
    others: &mut [u16],
) -> usize
    requires send_tables { SendTables ws.now s afters.now flow_at.now letter_at.now letters.now }
    requires lettered_state { LetteredState ws.now s i r 5 (option_copied within) tos.old others.old }
    ensures { (f : ℕ → Bool) →
        AskedOf (program ws.now s) (tables ws.now s) (option_copied within.entry) f →
        Added send tos.old others.old 0 tos.new others.new result
        (λ e. only_passing f (state_rules_of (program ws.now s) (tables ws.now s) e
        (state_at (tables ws.now s) i))) }
{
    let target = num(ws, s, r + 1);
    let message = num(ws, s, r + 2);
    let next = behind(ws, s, afters, at, i, r);
    let from = word(flow_at, target);
    let to = word(flow_at, target + 1);
    let mut part = [0u64; LETTER_WORDS];
    let mut found = [0u64; LETTER_WORDS];
    let mut n = 0;
    for j in from..to {
        let d = flow_value(ws, s, j);
        n = sent_rules(
            ws, s, flow_at, letter_at, letters, message, d, next, within, n, &mut part, &mut found,
            tos, others,
        );
    }
    n
}

// A receive: each branch that may match, by the letters that it takes; where that is asked for, of the set `within`
// only.
fn receive_rules(
    ws: &[u16],
    s: Sizes,
    afters: &[u16],
    w: usize,
    fitting: &[u64],
    names: &[u64],
    letter_at: &[u16],
    letters: &[u64],
    branches: &[u16],
    at: &[u16],
    i: usize,
    r: usize,
    within: Option<&[u64]>,
    tos: &mut [u16],
    others: &mut [u16],
) -> usize
    requires receive_tables { ReceiveTables ws.now s afters.now w fitting.now names.now letter_at.now letters.now
        branches.now }
    requires lettered_state { LetteredState ws.now s i r 9 (option_copied within) tos.old others.old }
    ensures { (f : ℕ → Bool) →
        AskedOf (program ws.now s) (tables ws.now s) (option_copied within.entry) f →
        Added receive tos.old others.old 0 tos.new others.new result
        (λ e. only_passing f (state_rules_of (program ws.now s) (tables ws.now s) e
        (state_at (tables ws.now s) i))) }
{
    let c = state_class(ws, s, i);
    let m = num(ws, s, r);
    let mut part = [0u64; LETTER_WORDS];
    let mut found = [0u64; LETTER_WORDS];
    let mut q = r + 1;
    let mut n = 0;
    for b in 0..m {
        let row = q;
        let e = branch_body(ws, s, afters, row);
        q = word(afters, e);
        if !may_match(branches, i, b) {
            continue;
        }
        let next = onto(ws, s, at, i, e);
        n = read_rules(
            ws, s, afters, w, fitting, names, letter_at, letters, c, row, next, within, n,
            &mut part, &mut found, tos, others,
        );
    }
    n
}

// The rules of state i: how many there are. The states that they lead to are guessed by the table `at`, of which
// nothing is asked.
pub fn state_rules(
    ws: &[u16],
    s: Sizes,
    afters: &[u16],
    flow_at: &[u16],
    w: usize,
    fitting: &[u64],
    names: &[u64],
    letter_at: &[u16],
    letters: &[u64],
    branches: &[u16],
    at: &[u16],
    i: usize,
    tos: &mut [u16],
    others: &mut [u16],
) -> usize
    requires rule_tables { RuleTables ws.now s afters.now flow_at.now w fitting.now names.now letter_at.now
        letters.now branches.now }
    requires i_lt_states { i < s.states }
    requires rule_room { RuleRoom ws.now s tos.old others.old }
    ensures { StateRules (program ws.now s) (tables ws.now s) i tos.new
        others.new result }
{
    let r = state_location(ws, s, i);
    match tag(ws, s, r) {
        TAG_GIVE => give_rules(ws, s, afters, at, i, tos),
        TAG_CALL => call_rules(ws, s, flow_at, at, i, r, tos),
        TAG_SEND => send_rules(
            ws, s, afters, flow_at, letter_at, letters, at, i, r, None, tos, others,
        ),
        TAG_SPAWN => spawn_rules(ws, s, afters, flow_at, at, i, r, tos, others),
        TAG_CASE => case_rules(ws, s, afters, branches, at, i, r, tos),
        TAG_RECEIVE => receive_rules(
            ws, s, afters, w, fitting, names, letter_at, letters, branches, at, i, r, None, tos,
            others,
        ),
        // build, function and self
        _ => rest_rules(ws, s, afters, at, i, r, tos),
    }
}

// The rules of state i, but of those of a receive or a send only the ones that read or put a letter of the set
// `within`.
pub fn rules_within(
    ws: &[u16],
    s: Sizes,
    afters: &[u16],
    flow_at: &[u16],
    w: usize,
    fitting: &[u64],
    names: &[u64],
    letter_at: &[u16],
    letters: &[u64],
    branches: &[u16],
    at: &[u16],
    i: usize,
    within: &[u64],
    tos: &mut [u16],
    others: &mut [u16],
) -> usize
    requires rule_tables { RuleTables ws.now s afters.now flow_at.now w fitting.now names.now letter_at.now
        letters.now branches.now }
    requires i_lt_states { i < s.states }
    requires row { Row within.now (letter_width_of (program ws.now s) (tables ws.now s)) 0 }
    requires rule_room { RuleRoom ws.now s tos.old others.old }
    ensures { (f : ℕ → Bool) →
        AskedLetters (program ws.now s) (tables ws.now s) true within.now f →
        RulesWithin (program ws.now s) (tables ws.now s) f i tos.new
        others.new result }
{
    let row = state_location(ws, s, i);
    match tag(ws, s, row) {
        TAG_SEND => send_rules(
            ws,
            s,
            afters,
            flow_at,
            letter_at,
            letters,
            at,
            i,
            row,
            Some(within),
            tos,
            others,
        ),
        TAG_RECEIVE => receive_rules(
            ws,
            s,
            afters,
            w,
            fitting,
            names,
            letter_at,
            letters,
            branches,
            at,
            i,
            row,
            Some(within),
            tos,
            others,
        ),
        _ => state_rules(
            ws, s, afters, flow_at, w, fitting, names, letter_at, letters, branches, at, i, tos,
            others,
        ),
    }
}
