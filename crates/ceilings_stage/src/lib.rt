// Refusals 11 to 14, one after the other, over lent scratch; after none the listing is written.
#![tactic(auto)]

ghost use Rattle.std.specs.Prelude.{◌≡◌, ◌≤◌, ◌<◌, length};
ghost use Rattle.model.specs.Verify.{outcome};
ghost use Rattle.rules.specs.Derived.{RuleRoom};
ghost use Rattle.rule_tables.specs.Joined.{JoinedTables};
ghost use Rattle.system_space.specs.Space.{words_after};
ghost use Rattle.stages.specs.Order.{below_ceilings};
ghost use Rattle.ceilings.specs.Table.{BoundsRoom};
ghost use Rattle.stages.specs.Scratch.{Numbered, MaskRoom};

use ceilings::fill_limits;
use leaks_stage::leaks_on;
use model::{Sizes, Verdict};
use rooms::row_words16;
use rule_tables::LETTER_AT;
use stages::{met_verdict, start_verdict};
use system_space::space_verdict;

// Refusals 11 to 14 over lent limits, sets of ceilings and lists of rules.
pub fn ceilings_on(
    ws: &[u16],
    s: Sizes,
    narrow: &[u16],
    fitting: &[u64],
    names: &[u64],
    letters: &[u64],
    n: usize,
    limits: &mut [u16],
    ceiling_at: &mut [u16],
    sums: &mut [u32],
    holders: &mut [u64],
    group: &mut [u64],
    near: &mut [u64],
    tos: &mut [u16],
    others: &mut [u16],
    lent: &mut [u32],
) -> Result<(), Verdict>
    requires joined_tables { JoinedTables ws.now s narrow.now fitting.now names.now letters.now }
    requires numbered { Numbered ws.now s n }
    requires bounds_room { BoundsRoom n s.ceilings limits.old ceiling_at.old × (n < length sums.old) }
    requires mask_room { MaskRoom n holders.old group.old near.old }
    requires rule_room { RuleRoom ws.now s tos.old others.old × (length tos.old ≤ 65536) }
    ensures value { result ≡ outcome (below_ceilings ws.now s n (length lent.old)) }
    ensures lent_after { lent.new ≡ words_after result ws.now s lent.old }
{
    fill_limits(ws, s, n, limits, ceiling_at);
    start_verdict(ws, s, narrow, n, limits)?;
    met_verdict(ws, s, &narrow[LETTER_AT..], letters, n, limits, sums)?;
    let mut at = row_words16();
    let (totals, leaks) = leaks_on(
        ws, s, narrow, fitting, names, letters, n, limits, ceiling_at, holders, group, near,
        &mut at, tos, others,
    );
    leaks?;
    space_verdict(
        ws, s, narrow, fitting, names, letters, totals, &mut at, tos, others, lent,
    )
}
