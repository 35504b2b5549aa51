// Refusal 13: from counts under a ceiling, a rule leads out of all ceilings.
#![tactic(auto)]

ghost use Rattle.std.specs.Prelude.{◌≡◌, not, ◌*◌, ◌≤◌, ◌<◌, length, drop};
ghost use Rattle.model.specs.Words.{right};
ghost use Rattle.model.specs.Rows.{program, tag};
ghost use Rattle.model.specs.Tables.{tables};
ghost use Rattle.model.specs.Rules.{rules};
ghost use Rattle.model.specs.Ceilings.{ceilings_of, leak_check_of};
ghost use Rattle.model.specs.Verify.{outcome};
ghost use Rattle.lists.specs.Ready.{Ready};
ghost use Rattle.system_letters.specs.Letters.{ClassLetters, letter_width_of};
ghost use Rattle.rules.specs.Derived.{RuleRoom};
ghost use Rattle.rule_tables.specs.Joined.{letter_from, JoinedTables};
ghost use Rattle.kept_rules.specs.Kept.{RoomFrom, KeptRules};
ghost use Rattle.steps.specs.Steps.{effect_kind_of};
ghost use Rattle.ceilings_letters.specs.Letters.{Under};
ghost use Rattle.system_totals.specs.Lines.{Totalled};
ghost use Rattle.ceilings_groups.specs.Groups.{GroupsUpto};
ghost use Rattle.ceilings_leaks.specs.Leaks.{CeilingsReady, Rooms, RulesSeen};

use ceilings_covers::{NAMED, candidates, is_usable, left_after, named, passes, surely_covered};
use ceilings_form::entries::counter_at;
use ceilings_groups::{is_boundless, put_group, settled};
use ceilings_letters::{asked_letters, held_letters};
use ceilings_masks::{Over, compare};
use kept_rules::{Found, Kept, keep, none_kept, rules_again, rules_from};
use lists::state_location;
use masks::{Mask, first_set, next_in};
use model::{Sizes, Verdict};
use onward::guess_class;
use parts::ceilings_at;
use program::rows::tag;
use rule_tables::LETTER_AT;
use steps::{Step, effect_kind};
use system_letters::{LETTER_WORDS, letter_width};
use system_totals::{Totals, row_total, state_head};

// The kind of the rules of state i.
fn kind_at(ws: &[u16], s: Sizes, i: usize) -> usize
    requires ready { Ready ws.now s }
    requires i_lt_states { i < s.states }
    ensures value { result ≡
        effect_kind_of (tag (program ws.now s) (right (tables ws.now s).states i)) }
    ensures upper_bound { result ≤ 3 }
{
    effect_kind(tag(ws, s, state_location(ws, s, i)))
}

// After all states: how many rules and rows there are, and whether the rules are kept.
#[derive(Clone, Copy)]
pub struct Gathered {
    pub totals: Totals,
    pub kept: Kept,
}

// For each state the ceilings that have no bound where its rules add, those that have none at states and hold one at
// letters, and those that hold one. The rules are counted here too; and where they are few they are kept, within the
// first `spare` words of the lists, so that the leak test does not derive them again for each ceiling that does not
// settle their state.
pub fn fill_groups(
    ws: &[u16],
    s: Sizes,
    narrow: &[u16],
    fitting: &[u64],
    names: &[u64],
    letters: &[u64],
    n: usize,
    limits: &[u16],
    starts: &[u16],
    holders: &[u64],
    spare: usize,
    at: &mut [u16],
    tos: &mut [u16],
    others: &mut [u16],
    first_at: &mut [u16],
    group: &mut [u64],
) -> Gathered
    requires joined_tables { JoinedTables ws.now s narrow.now fitting.now names.now letters.now }
    requires ceilings_ready { CeilingsReady ws.now s n limits.now starts.now holders.now }
    requires room_from { RoomFrom ws.now s spare tos.old others.old × (length tos.old ≤ 65536) }
    requires states_in_bounds { s.states * 12 ≤ length group.old }
    ensures groups_upto { GroupsUpto (program ws.now s) (tables ws.now s) limits.now
        s.ceilings s.states n s.states group.new }
    ensures totalled { Totalled (program ws.now s) (tables ws.now s) result.totals }
    ensures kept_rules { KeptRules (program ws.now s) (tables ws.now s) s.states result.kept
        first_at.new tos.new others.new }
{
    let boundless = is_boundless(holders, n);
    let mut kept = none_kept(s.states, first_at);
    let mut rules = 0;
    let mut rows = 0;
    for i in 0..s.states {
        let used = kept.used;
        guess_class(ws, s, at, i);
        let m = rules_from(
            ws, s, narrow, fitting, names, letters, at, i, used, tos, others,
        );
        let head = state_head(ws, s, i);
        rules += m;
        rows += row_total(head, m);
        put_group(
            boundless,
            limits,
            s.ceilings,
            s.states,
            n,
            holders,
            effect_kind(head),
            &tos[used..],
            &others[used..],
            m,
            i,
            group,
        );
        kept = keep(kept, spare, i, m, first_at);
    }
    let totals = Totals { rules, rows };
    Gathered { totals, kept }
}

// The words of a set of letters.
fn set_words(ws: &[u16], s: Sizes, narrow: &[u16]) -> usize
    requires ready { Ready ws.now s }
    requires class_letters { ClassLetters (program ws.now s) (tables ws.now s) (drop letter_from narrow.now) }
    ensures { result ≡ letter_width_of (program ws.now s) (tables ws.now s) }
{
    let letter_at = &narrow[LETTER_AT..];
    letter_width(ws, s, letter_at)
}

// The rules of state i that have to be looked at under ceiling k: those kept, or derived again by the letters that the
// set `within` of its letters and the ceilings beside it leave to look at.
fn rules_under(
    ws: &[u16],
    s: Sizes,
    narrow: &[u16],
    fitting: &[u64],
    names: &[u64],
    letters: &[u64],
    n: usize,
    limits: &[u16],
    holders: &[u64],
    over: Over,
    near: &[u64],
    kept: Kept,
    first_at: &[u16],
    at: &[u16],
    k: usize,
    i: usize,
    left: Mask,
    words: usize,
    within: &[u64],
    tos: &mut [u16],
    others: &mut [u16],
) -> Found
    requires joined_tables { JoinedTables ws.now s narrow.now fitting.now names.now letters.now }
    requires under { Under ws.now s n k i words limits.now holders.now over near.now left (not kept.all)
        within.now }
    requires rule_room { RuleRoom ws.now s tos.old others.old × KeptRules (program ws.now s) (tables ws.now s)
        s.states kept first_at.now tos.old others.old }
    ensures rules_seen { RulesSeen (program ws.now s) (tables ws.now s) limits.now
        s.ceilings n k i tos.new others.new result.first result.end }
    ensures kept_rules { KeptRules (program ws.now s) (tables ws.now s) s.states kept
        first_at.now tos.new others.new }
{
    let mut asked = [0u64; LETTER_WORDS];
    asked_letters(
        !kept.all, ws, s, narrow, at, n, limits, holders, over, near, k, i, left, words, within,
        &mut asked,
    );
    rules_again(
        ws, s, narrow, fitting, names, letters, kept, first_at, at, i, &asked, tos, others,
    )
}

// Refusal 13: the first ceiling that leaks, at its first entry. Loops over the ceilings, over each one's states, over
// the rules of a state, and over the ceilings that may cover the counts after a rule; left from inside at the first
// limit exceeded, the first ceiling that covers, the first that leaks. Where rules are derived again, those of letters
// that lead out of nothing are left out: a state may have a thousand of them under each ceiling. (Document 01 has this
// nest of labelled loops: the states of a ceiling end at an entry that is none, and the candidates are bits of a mask.)
pub fn leak_check(
    ws: &[u16],
    s: Sizes,
    narrow: &[u16],
    fitting: &[u64],
    names: &[u64],
    letters: &[u64],
    n: usize,
    limits: &[u16],
    starts: &[u16],
    holders: &[u64],
    group: &[u64],
    kept: Kept,
    first_at: &[u16],
    at: &[u16],
    tos: &mut [u16],
    others: &mut [u16],
    near: &mut [u64],
) -> Result<(), Verdict>
    requires joined_tables { JoinedTables ws.now s narrow.now fitting.now names.now letters.now }
    requires ceilings_ready { CeilingsReady ws.now s n limits.now starts.now holders.now }
    requires groups_upto { GroupsUpto (program ws.now s) (tables ws.now s) limits.now s.ceilings s.states n
        s.states group.now }
    requires kept_rules { KeptRules (program ws.now s) (tables ws.now s) s.states kept first_at.now tos.old
        others.old }
    requires states_in_bounds { s.states * 12 ≤ length group.now }
    requires rooms { Rooms ws.now s n tos.old others.old near.old }
    ensures { result ≡
        outcome (leak_check_of ws.now s (ceilings_of ws.now s n)
        (rules (program ws.now s) (tables ws.now s))) }
{
    let words = set_words(ws, s, narrow);
    let mut within = [0u64; LETTER_WORDS];
    'ceilings: for k in 0..s.ceilings {
        let first = starts[k] as usize;
        let over = compare(ws, s, n, limits, holders, k, first, near);
        held_letters(!kept.all, s, n, limits, k, words, &mut within);
        let mut e = first;
        'states: loop {
            let i = counter_at(ws, s, e);
            if i >= s.states {
                continue 'ceilings;
            }
            e += 1;
            let left = left_after(limits, s.ceilings, n, holders, over, near, k, i);
            if settled(left, over, group, i) {
                continue 'states;
            }
            let found = rules_under(
                ws, s, narrow, fitting, names, letters, n, limits, holders, over, near, kept,
                first_at, at, k, i, left, words, &within, tos, others,
            );
            let end = found.end;
            let kind = kind_at(ws, s, i);
            'rules: for j in found.first..end {
                let to = tos[j] as usize;
                let other = others[j] as usize;
                let step = Step {
                    from: i,
                    to,
                    kind,
                    other,
                };
                if !is_usable(limits, s.ceilings, n, k, step) {
                    continue 'rules;
                }
                let mask = candidates(limits, s.ceilings, n, holders, over, near, k, left, step);
                // every candidate of a sure step covers
                if surely_covered(step, mask) {
                    continue 'rules;
                }
                let mut a = first_set(mask);
                'candidates: while a < 256 {
                    let k2 = a;
                    for b in 0..NAMED {
                        let y = named(step, b);
                        if y < n {
                            // the first limit exceeded
                            if !passes(limits, s.ceilings, k, k2, step, y) {
                                a = next_in(mask, k2 + 1);
                                continue 'candidates;
                            }
                        }
                    }
                    // the first ceiling that covers
                    continue 'rules;
                }
                // the first ceiling that leaks
                let place = ceilings_at(s) + 2 + first;
                return Err(Verdict::Leak(place));
            }
        }
    }
    Ok(())
}
