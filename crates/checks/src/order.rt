// The order of the checks: refusals 3 to 14 and 16 to 18, and 22 between 8 and 9, of the words of a message whose parts
// are whole.
ghost use Rattle.std.specs.Prelude.{◌≡◌, length};
ghost use Rattle.model.specs.Limits.{present};
ghost use Rattle.model.specs.Verify.{message_check, outcome};
ghost use Rattle.evidence.specs.Whole.{PartsWhole};
ghost use Rattle.system_space.specs.Space.{words_after};
ghost use Rattle.matching_names.specs.Names.{Unfitted};
ghost use Rattle.stages.specs.Order.{taken};

use crate::system::system_verdict;
use bads::bad_check;
use closure_sized::open_verdict;
use evidence::entries::entry_check;
use grammar::row_check;
use layout::ends::fill_ends;
use model::{Sizes, Verdict};
use rooms::{row_words16, rule_words16, words16};
use rule_tables::join_tables;
use scopes::names::name_check;
use scopes::scope::scope_check;

// Refusals 3 to 8, 22, 9 and all behind, one after the other; after none the listing is written.
pub fn words_verdict(
    ws: &[u16],
    s: Sizes,
    fitting: &mut [u64],
    lent: &mut [u32],
) -> Result<(), Verdict>
    requires parts_whole { PartsWhole ws.now s }
    requires unfitted { Unfitted s.names s.rows fitting.old }
    ensures value { result ≡ outcome (message_check present (taken ws.now s) (length lent.old)) }
    ensures lent_after { lent.new ≡ words_after result ws.now s lent.old }
{
    row_check(ws, s)?;
    let mut binders = words16::<512>();
    name_check(ws, s, &mut binders)?;
    let mut narrow = rule_words16();
    fill_ends(ws, s, &mut narrow);
    scope_check(ws, s, &narrow, &binders)?;
    bad_check(ws, s)?;
    entry_check(ws, s)?;
    let mut starts = row_words16();
    let mut branches = row_words16();
    open_verdict(64, ws, s, &narrow, &mut starts, fitting, &mut branches)?;
    join_tables(s, &starts, &branches, &mut narrow);
    system_verdict(ws, s, &mut narrow, fitting, lent)
}
