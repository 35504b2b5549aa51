// The values that may be equal to one that a name holds: what a held name in a pattern may match.
ghost use Rattle.std.specs.Prelude.{◌≡◌, ◌+◌, ◌<◌};
ghost use Rattle.model.specs.Rows.{program, num, tag};
ghost use Rattle.model.specs.Tables.{tables};
ghost use Rattle.model.specs.Closed.{may_equal};
ghost use Rattle.bits.specs.Bits.{Row};
ghost use Rattle.values.specs.Values.{width};
ghost use Rattle.matching.specs.Patterns.{is_build, does_equal_some, BuildReady};
ghost use Rattle.matching_sets.specs.Sets.{Joined, HeldName, EqualsRoom};

use lists::word;
use model::{Sizes, TAG_BUILD};
use program::rows::{is_class, num, tag};
use sets::{holds, put};
use values::width;

// Puts all builds of the constructor that row u builds into set q.
fn put_builds(
    ws: &[u16],
    s: Sizes,
    firsts: &[u16],
    nexts: &[u16],
    u: usize,
    sets: &mut [u64],
    q: usize,
)
    requires build_ready { BuildReady ws.now s firsts.now nexts.now }
    requires row { Row sets.old (width s.rows) q × ((tag (program ws.now s) u ≡ 2) × (u < s.rows)) }
    ensures { Joined (width s.rows) q
        (is_build (program ws.now s) (num (program ws.now s) (u + 1))) sets.old
        sets.new }
{
    let w = width(s);
    let k = num(ws, s, u + 1);
    let mut v = word(firsts, k);
    // A chain of links is walked, and no index counted.
    while v < s.rows {
        put(sets, w, q, v);
        v = word(nexts, v);
    }
}

// Puts the values that may be equal to u into set q. A build row that is there has brought all of its constructor.
fn put_equals(
    ws: &[u16],
    s: Sizes,
    firsts: &[u16],
    nexts: &[u16],
    u: usize,
    sets: &mut [u64],
    q: usize,
)
    requires build_ready { BuildReady ws.now s firsts.now nexts.now }
    requires equals_room { EqualsRoom ws.now s u sets.old q }
    ensures { Joined (width s.rows) q (λ v. may_equal (program ws.now s) v u) sets.old
        sets.new }
{
    let w = width(s);
    if is_class(ws, s, u) {
        put(sets, w, q, u);
        return;
    }
    if tag(ws, s, u) != TAG_BUILD {
        return;
    }
    if holds(sets, w, q, u) {
        return;
    }
    put_builds(ws, s, firsts, nexts, u, sets, q);
}

// The set of the held name at row q.
pub fn fill_equals(
    ws: &[u16],
    s: Sizes,
    flow: &[u64],
    firsts: &[u16],
    nexts: &[u16],
    may: &mut [u64],
    q: usize,
)
    requires build_ready { BuildReady ws.now s firsts.now nexts.now }
    requires held_name { HeldName ws.now s flow.now may.old q }
    ensures { Joined (width s.rows) q
        (does_equal_some (program ws.now s) (tables ws.now s) (num (program ws.now s) q))
        may.old may.new }
{
    let w = width(s);
    let n = num(ws, s, q);
    for u in 0..64 * w {
        if !holds(flow, w, n, u) {
            continue;
        }
        put_equals(ws, s, firsts, nexts, u, may, q);
    }
}
