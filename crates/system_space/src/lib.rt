// Refusal 14, and the listing.
#![tactic(auto)]

ghost use Rattle.std.specs.Prelude.{◌≡◌, length};
ghost use Rattle.model.specs.Rows.{program};
ghost use Rattle.model.specs.Tables.{tables};
ghost use Rattle.model.specs.Listing.{space_check};
ghost use Rattle.model.specs.Verify.{outcome};
ghost use Rattle.rules.specs.Derived.{RuleRoom};
ghost use Rattle.rule_tables.specs.Joined.{JoinedTables};
ghost use Rattle.system_totals.specs.Lines.{Totalled};
ghost use Rattle.system_space.specs.Space.{words_after};

use model::{Sizes, Verdict};
use system_listing::write_listing;
use system_totals::Totals;

// The listing written, or refusal 14 where it has no room, by the totals of its rules and rows.
pub fn space_verdict(
    ws: &[u16],
    s: Sizes,
    narrow: &[u16],
    fitting: &[u64],
    names: &[u64],
    letters: &[u64],
    n: Totals,
    at: &mut [u16],
    tos: &mut [u16],
    others: &mut [u16],
    lent: &mut [u32],
) -> Result<(), Verdict>
    requires joined_tables { JoinedTables ws.now s narrow.now fitting.now names.now letters.now }
    requires rule_room { RuleRoom ws.now s tos.old others.old }
    requires totalled { Totalled (program ws.now s) (tables ws.now s) n }
    ensures value { result ≡
        outcome (space_check (program ws.now s) (tables ws.now s) (length lent.old)) }
    ensures lent_after { lent.new ≡ words_after result ws.now s lent.old }
{
    let needed = 4 + 2 * n.rows;
    if needed > lent.len() {
        return Err(Verdict::Space(needed));
    }
    write_listing(
        lent, n, ws, s, narrow, fitting, names, letters, at, tos, others,
    );
    Ok(())
}
