// Refusal 13 with all that it needs: the masks of the ceilings, the rules of each state counted and grouped, the leak
// test.
#![tactic(auto)]

ghost use Rattle.std.specs.Prelude.{◌≡◌, ◌≤◌, length};
ghost use Rattle.model.specs.Rows.{program};
ghost use Rattle.model.specs.Tables.{tables};
ghost use Rattle.model.specs.Rules.{rules};
ghost use Rattle.model.specs.Ceilings.{ceilings_of, leak_check_of};
ghost use Rattle.model.specs.Verify.{outcome};
ghost use Rattle.lists.specs.Ready.{Ready};
ghost use Rattle.system_letters.specs.Letters.{ClassLetters};
ghost use Rattle.rules.specs.Derived.{RuleRoom};
ghost use Rattle.rule_tables.specs.Joined.{JoinedTables};
ghost use Rattle.system_totals.specs.Lines.{Totalled};
ghost use Rattle.stages.specs.Scratch.{Limited, MaskRoom, RulesFit};

use ceilings_leaks::{fill_groups, leak_check};
use ceilings_masks::fill_holders;
use model::{MAX_BRANCHES, MAX_COUNTERS, Sizes, Verdict};
use rooms::words16;
use rule_tables::LETTER_AT;
use system_letters::letter_count;
use system_totals::Totals;

// So many of `room` words are more than the rules of any one state need: in these the rules of all states are kept.
fn spare_words(ws: &[u16], s: Sizes, letter_at: &[u16], room: usize) -> usize
    requires ready { Ready ws.now s }
    requires class_letters { ClassLetters (program ws.now s) (tables ws.now s) letter_at.now }
    requires rules_fit { RulesFit ws.now s 0 room }
    ensures { RulesFit ws.now s result room }
{
    let by_letter = MAX_BRANCHES * letter_count(ws, s, letter_at);
    let for_letters = room - by_letter;
    let for_values = room - s.rows - 1;
    let for_counters = room - MAX_COUNTERS;
    for_letters.min(for_values).min(for_counters)
}

// The totals of the rules, refused or not, which are counted on the way, and refusal 13, over lent sets of ceilings and
// lists of rules.
pub fn leaks_on(
    ws: &[u16],
    s: Sizes,
    narrow: &[u16],
    fitting: &[u64],
    names: &[u64],
    letters: &[u64],
    n: usize,
    limits: &[u16],
    ceiling_at: &[u16],
    holders: &mut [u64],
    group: &mut [u64],
    near: &mut [u64],
    at: &mut [u16],
    tos: &mut [u16],
    others: &mut [u16],
) -> (Totals, Result<(), Verdict>)
    requires joined_tables { JoinedTables ws.now s narrow.now fitting.now names.now letters.now }
    requires limited { Limited ws.now s n limits.now ceiling_at.now }
    requires mask_room { MaskRoom n holders.old group.old near.old }
    requires rule_room { RuleRoom ws.now s tos.old others.old × (length tos.old ≤ 65536) }
    ensures value { result.1 ≡
        outcome (leak_check_of ws.now s (ceilings_of ws.now s n)
        (rules (program ws.now s) (tables ws.now s))) }
    ensures totalled { Totalled (program ws.now s) (tables ws.now s) result.0 }
{
    fill_holders(limits, s.ceilings, n, holders);
    let letter_at = &narrow[LETTER_AT..];
    let spare = spare_words(ws, s, letter_at, tos.len());
    let mut first_at = words16::<258>();
    let gathered = fill_groups(
        ws,
        s,
        narrow,
        fitting,
        names,
        letters,
        n,
        limits,
        ceiling_at,
        holders,
        spare,
        at,
        tos,
        others,
        &mut first_at,
        group,
    );
    let kept = gathered.kept;
    let leaks = leak_check(
        ws, s, narrow, fitting, names, letters, n, limits, ceiling_at, holders, group, kept,
        &first_at, at, tos, others, near,
    );
    (gathered.totals, leaks)
}
