// The code of a pattern: whether it may match, and whether its names then hold what they are to.
ghost use Rattle.std.specs.Prelude.{◌≡◌, true, ◌+◌, ◌*◌, ◌<◌, max};
ghost use Rattle.model.specs.Index.{any};
ghost use Rattle.model.specs.Rows.{program, tag};
ghost use Rattle.model.specs.Tables.{tables};
ghost use Rattle.bits.specs.Bits.{Row, shared};
ghost use Rattle.values.specs.Values.{FlowReady};
ghost use Rattle.matching.specs.Patterns.{code, IsCode, IsValuesCode, Matched};
ghost use Rattle.matching.specs.Patterns.{MatchReady, PatternAsked, SameMade};

use lists::word;
use model::{Sizes, TAG_PATTERN_CONSTRUCTOR, TAG_PATTERN_HELD, TAG_PATTERN_NAME};
use program::rows::{num, tag};
use sets::{common, meets, within};
use values::width;

// The worse of two codes.
pub fn worse(a: usize, b: usize) -> usize
    ensures { result ≡ max a b }
{
    a.max(b)
}

// The code of the pattern at row q, a name bound or any value, with the values of set k.
fn leaf_code(
    ws: &[u16],
    s: Sizes,
    flow: &[u64],
    sets: &[u64],
    k: usize,
    q: usize,
    kind: usize,
) -> usize
    requires flow_ready { FlowReady ws.now s flow.now }
    requires pattern_asked { PatternAsked ws.now s sets.now k q
        × ((kind ≡ tag (program ws.now s) q) × (kind ≡ 31 → ⊥) × (kind ≡ 33 → ⊥)) }
    ensures { IsValuesCode (program ws.now s) (tables ws.now s)
        sets.now k q result }
{
    let w = width(s);
    if !meets(sets, sets, w, k, k) {
        return 0;
    }
    if kind != TAG_PATTERN_NAME {
        return 1;
    }
    let name = num(ws, s, q);
    if within(sets, flow, w, k, name) { 1 } else { 2 }
}

// The code of a held name, which binds nothing: whether set n of a and set m of may have a value in common.
fn met_code(a: &[u64], may: &[u64], w: usize, n: usize, m: usize) -> usize
    requires { Row a.now w n × Row may.now w m }
    ensures { result ≡ code (any 0 (64 * w) (shared a.now may.now w n m)) true }
{
    if meets(a, may, w, n, m) { 1 } else { 0 }
}

// The code of the pattern at row q with the values of set k.
pub fn values_code(
    ws: &[u16],
    s: Sizes,
    flow: &[u64],
    may: &[u64],
    held: &[u64],
    sets: &[u64],
    k: usize,
    q: usize,
) -> usize
    requires flow_ready { FlowReady ws.now s flow.now }
    requires pattern_asked { PatternAsked ws.now s sets.now k q
        × Matched (program ws.now s) (tables ws.now s) may.now held.now q }
    ensures { IsValuesCode (program ws.now s) (tables ws.now s)
        sets.now k q result }
{
    let kind = tag(ws, s, q);
    if kind == TAG_PATTERN_CONSTRUCTOR {
        let w = width(s);
        return common(sets, may, held, w, k, q);
    }
    if kind == TAG_PATTERN_HELD {
        let w = width(s);
        return met_code(sets, may, w, k, q);
    }
    leaf_code(ws, s, flow, sets, k, q, kind)
}

// The code of the constructor pattern at row q with the value v of that constructor, by those of its subpatterns with
// the arguments' values.
pub fn arguments_code(
    ws: &[u16],
    s: Sizes,
    afters: &[u16],
    flow: &[u64],
    may: &[u64],
    held: &[u64],
    q: usize,
    v: usize,
) -> usize
    requires cases { MatchReady ws.now s afters.now flow.now may.now held.now (q + 1) }
    requires same_made { SameMade (program ws.now s) q v }
    ensures { IsCode (program ws.now s) (tables ws.now s) q v result }
{
    let made = num(ws, s, q);
    let arity = num(ws, s, made);
    let mut worst = 1;
    let mut sub = q + 1;
    for i in 0..arity {
        let name = num(ws, s, v + 2 + i);
        let code = values_code(ws, s, flow, may, held, flow, name, sub);
        if code == 0 {
            return 0;
        }
        worst = worse(worst, code);
        sub = word(afters, sub);
    }
    worst
}
