// The rows that build values, as a chain for each constructor.
ghost use Rattle.std.specs.Prelude.{◌≤◌, length};
ghost use Rattle.model.specs.Rows.{program};
ghost use Rattle.lists.specs.Ready.{Ready};
ghost use Rattle.matching.specs.Patterns.{Builds};

use model::{Sizes, TAG_BUILD};
use program::rows::{num, tag};

// The first build of each constructor, and the next behind each build.
pub fn fill_builds(ws: &[u16], s: Sizes, firsts: &mut [u16], nexts: &mut [u16])
    requires ready { Ready ws.now s }
    requires constructors_in_bounds { s.constructors ≤ length firsts.old }
    requires rows_in_bounds { s.rows ≤ length nexts.old }
    ensures { Builds (program ws.now s) firsts.new nexts.new }
{
    let none = s.rows as u16;
    firsts[..s.constructors].fill(none);
    for r in (0..s.rows).rev() {
        if tag(ws, s, r) == TAG_BUILD {
            let made = num(ws, s, r + 1);
            nexts[r] = firsts[made];
            firsts[made] = r as u16;
        }
    }
}
