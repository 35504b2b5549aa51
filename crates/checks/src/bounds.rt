// The bounds of a message, which are its ceilings, or lines of weights in their place: the checks that follow the form
// of either.
ghost use Rattle.std.specs.Prelude.{◌≡◌, length};
ghost use Rattle.model.specs.Verify.{outcome};
ghost use Rattle.rule_tables.specs.Joined.{JoinedTables};
ghost use Rattle.system_space.specs.Space.{words_after};
ghost use Rattle.stages.specs.Order.{below_bounds};
ghost use Rattle.stages.specs.Scratch.{Formed};

use ceilings_sized::ceilings_verdict;
use model::{Sizes, Verdict};
use weights_stage::weights_verdict;

// Refusals 11 to 14, or 17, 18 and 14 where the message has lines of weights.
pub fn bounds_verdict(
    ws: &[u16],
    s: Sizes,
    narrow: &[u16],
    fitting: &[u64],
    names: &[u64],
    letters: &[u64],
    n: usize,
    lent: &mut [u32],
) -> Result<(), Verdict>
    requires joined_tables { JoinedTables ws.now s narrow.now fitting.now names.now letters.now }
    requires formed { Formed ws.now s n }
    ensures value { result ≡ outcome (below_bounds ws.now s n (length lent.old)) }
    ensures lent_after { lent.new ≡ words_after result ws.now s lent.old }
{
    if s.lines == 0 {
        return ceilings_verdict(32, ws, s, narrow, fitting, names, letters, n, lent);
    }
    weights_verdict(24, ws, s, narrow, fitting, names, letters, n, lent)
}
