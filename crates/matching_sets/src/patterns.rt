// The sets of each constructor pattern and of each held name.
ghost use Rattle.std.specs.Prelude.{◌≡◌, ◌+◌, ◌*◌, ◌<◌};
ghost use Rattle.model.specs.Rows.{program, tag};
ghost use Rattle.model.specs.Tables.{tables};
ghost use Rattle.bits.specs.Bits.{Row};
ghost use Rattle.matching.specs.Patterns.{Matches};
ghost use Rattle.matching_sets.specs.Sets.{PutIf, FillReady, Unfilled, FilledFrom};

use crate::equals::fill_equals;
use lists::word;
use matching::codes::arguments_code;
use model::{Sizes, TAG_PATTERN_CONSTRUCTOR, TAG_PATTERN_HELD};
use program::rows::{num, tag};
use sets::put;
use values::width;

// Puts value v into set n where b says so.
fn put_if(t: &mut [u64], w: usize, n: usize, v: usize, b: bool)
    requires v_bound { v < 64 * w }
    requires row { Row t.old w n }
    ensures { PutIf w n v b t.old t.new }
{
    if b {
        put(t, w, n, v);
    }
}

// The sets of the constructor pattern at row q.
fn fill_pattern(
    ws: &[u16],
    s: Sizes,
    afters: &[u16],
    flow: &[u64],
    firsts: &[u16],
    nexts: &[u16],
    may: &mut [u64],
    held: &mut [u64],
    q: usize,
)
    requires fill_ready { FillReady ws.now s afters.now flow.now firsts.now nexts.now }
    requires filled_from { FilledFrom ws.now s may.old held.old (q + 1)
        × ((tag (program ws.now s) q ≡ 31) × (q < s.rows)) }
    ensures { FilledFrom ws.now s may.new held.new q }
{
    let w = width(s);
    let made = num(ws, s, q);
    let mut v = word(firsts, made);
    // A chain of links is walked, and no index counted.
    while v < s.rows {
        let code = arguments_code(ws, s, afters, flow, may, held, q, v);
        put_if(may, w, q, v, code != 0);
        put_if(held, w, q, v, code == 1);
        v = word(nexts, v);
    }
}

// The sets of all constructor patterns and held names, in two tables of zeros.
pub fn fill_patterns(
    ws: &[u16],
    s: Sizes,
    afters: &[u16],
    flow: &[u64],
    firsts: &[u16],
    nexts: &[u16],
    may: &mut [u64],
    held: &mut [u64],
)
    requires fill_ready { FillReady ws.now s afters.now flow.now firsts.now nexts.now }
    requires unfilled { Unfilled s may.old held.old }
    ensures { Matches (program ws.now s) (tables ws.now s) may.new
        held.new 0 }
{
    for q in (0..s.rows).rev() {
        let kind = tag(ws, s, q);
        if kind == TAG_PATTERN_CONSTRUCTOR {
            fill_pattern(ws, s, afters, flow, firsts, nexts, may, held, q);
        } else if kind == TAG_PATTERN_HELD {
            fill_equals(ws, s, flow, firsts, nexts, may, q);
        }
    }
}
