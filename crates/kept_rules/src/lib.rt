// The rules of all states, kept where they are few: so that whoever goes over the states again and again derives them
// once. One state's stand behind another's, in the two lists that hold the rules of one state.
#![tactic(auto)]

ghost use Rattle.std.specs.Prelude.{◌≡◌, Bool, true, false, ℕ, ◌+◌, ◌≤◌, ◌<◌, length, get_or, set};
ghost use Rattle.model.specs.Rows.{program};
ghost use Rattle.model.specs.Tables.{tables};
ghost use Rattle.rules.specs.Derived.{RuleRoom};
ghost use Rattle.rule_tables.specs.Joined.{JoinedTables, SameBelow};
ghost use Rattle.bits.specs.Bits.{Row};
ghost use Rattle.system_letters.specs.Letters.{letter_width_of};
ghost use Rattle.rules.specs.Within.{AskedLetters};
ghost use Rattle.kept_rules.specs.Kept.{RoomFrom, RulesFrom, RulesAsked, KeptRules};

use lists::word;
use model::Sizes;
use rule_tables::{rules_of, rules_within_of};

// Whether the rules of all states so far are kept, and up to where in the lists. No `Option` of the place: the clauses
// of `none_kept` and `keep`, and `KeptRules`, name both fields, and say of `used` what holds where none are kept.
#[derive(Clone, Copy)]
pub struct Kept {
    pub all: bool,
    pub used: usize,
}

// From where up to where the rules of a state stand.
#[derive(Clone, Copy)]
pub struct Found {
    pub first: usize,
    pub end: usize,
}

// No state's rules are kept yet; and none will be where there are too few words to say where each state's begin.
pub fn none_kept(states: usize, first_at: &mut [u16]) -> Kept
    ensures used_value { result.used ≡ 0 }
    ensures states_in_bounds { result.all ≡ true →
        (states < length first_at.new) × (get_or first_at.new 0 0 ≡ 0) }
{
    if states >= first_at.len() {
        return Kept {
            all: false,
            used: 0,
        };
    }
    first_at[0] = 0;
    Kept { all: true, used: 0 }
}

// The m rules of state i, which stand behind those kept, are kept too where they end within the first `spare` words;
// else none are, and the next state's go to the front.
pub fn keep(k: Kept, spare: usize, i: usize, m: usize, first_at: &mut [u16]) -> Kept
    requires used_le_spare { (k.used ≤ spare) × (spare < 65536) }
    requires i_in_bounds { k.all ≡ true → i + 1 < length first_at.old }
    requires i_bound { (i < 65536) × (m ≤ 65536) }
    ensures used_le_spare_2 { result.used ≤ spare }
    ensures all_value { result.all ≡ true → (k.all ≡ true) × (result.used ≡ k.used + m) ×
        (first_at.new ≡ set first_at.old (i + 1) (k.used + m)) }
{
    let none = Kept {
        all: false,
        used: 0,
    };
    if !k.all {
        return none;
    }
    let end = k.used + m;
    if end > spare {
        return none;
    }
    let next = i + 1;
    first_at[next] = end as u16;
    Kept {
        all: true,
        used: end,
    }
}

// The rules of state i, derived into the lists from `first` on.
pub fn rules_from(
    ws: &[u16],
    s: Sizes,
    narrow: &[u16],
    fitting: &[u64],
    names: &[u64],
    letters: &[u64],
    at: &[u16],
    i: usize,
    first: usize,
    tos: &mut [u16],
    others: &mut [u16],
) -> usize
    requires joined_tables { JoinedTables ws.now s narrow.now fitting.now names.now letters.now }
    requires i_lt_states { (i < s.states) × (first < 65536) }
    requires room_from { RoomFrom ws.now s first tos.old others.old }
    ensures rules_from { RulesFrom (program ws.now s) (tables ws.now s) i first tos.new
        others.new result }
    ensures same_below { SameBelow first tos.old tos.new ×
        SameBelow first others.old others.new }
{
    rules_of(
        ws,
        s,
        narrow,
        fitting,
        names,
        letters,
        at,
        i,
        &mut tos[first..],
        &mut others[first..],
    )
}

// The rules of state i, where they are kept; else derived into the lists from the front on, but of those of a receive
// or a send only the ones that read or put a letter of the set `within`: they are asked for once for each ceiling that
// has not settled the state, and of a thousand letters few may have to be looked at.
pub fn rules_again(
    ws: &[u16],
    s: Sizes,
    narrow: &[u16],
    fitting: &[u64],
    names: &[u64],
    letters: &[u64],
    kept: Kept,
    first_at: &[u16],
    at: &[u16],
    i: usize,
    within: &[u64],
    tos: &mut [u16],
    others: &mut [u16],
) -> Found
    requires joined_tables { JoinedTables ws.now s narrow.now fitting.now names.now letters.now }
    requires kept_rules { KeptRules (program ws.now s) (tables ws.now s) s.states kept first_at.now tos.old
        others.old }
    requires i_lt_states { i < s.states }
    requires row { Row within.now (letter_width_of (program ws.now s) (tables ws.now s)) 0 }
    requires rule_room { RuleRoom ws.now s tos.old others.old }
    ensures by_index { (f : ℕ → Bool) → (kept.all ≡ false →
        AskedLetters (program ws.now s) (tables ws.now s) true within.now f) →
        RulesAsked (program ws.now s) (tables ws.now s) f i tos.new
        others.new result.first result.end }
    ensures kept_rules_2 { KeptRules (program ws.now s) (tables ws.now s) s.states kept
        first_at.now tos.new others.new }
{
    if kept.all {
        let next = i + 1;
        return Found {
            first: word(first_at, i),
            end: word(first_at, next),
        };
    }
    let end = rules_within_of(
        ws, s, narrow, fitting, names, letters, at, i, within, tos, others,
    );
    Found { first: 0, end }
}
