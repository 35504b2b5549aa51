// The letters that a value allows, as numbers, put among ascending ones.
#![tactic(auto)]

ghost use Rattle.std.specs.Prelude.{◌≡◌, true, false, ◌<◌};
ghost use Rattle.model.specs.Rows.{program};
ghost use Rattle.model.specs.Tables.{tables};
ghost use Rattle.program.specs.Rows.{Whole};
ghost use Rattle.ascending.specs.Numbers.{Room, Added};
ghost use Rattle.value_letters.specs.Letters.{HeadsKnown, value_arity_of, ValueOf, Prefixed};
ghost use Rattle.value_letters.specs.Letters.{Allowed, Extended, Lacking};

use ascending::insert;
use masks::next_of_two;
use model::{MAX_ARITY, OTHER_HEADS, Sizes, TAG_BUILD};
use program::rows::{num, tag};
use sets::meets;
use system_letters::row_head;

// Puts the numbers that begin with the prefix and go on with a head of each argument of v from i on among the ascending
// words from..n; gives where they end. It stops where there are more than the most: eight arguments of 66 heads have
// 66^8 such numbers.
fn extend(
    ws: &[u16],
    s: Sizes,
    names: &[u64],
    v: usize,
    arity: usize,
    i: usize,
    prefix: u64,
    most: usize,
    from: usize,
    n: usize,
    codes: &mut [u64],
) -> usize
    requires heads_known { HeadsKnown ws.now s names.now }
    requires prefixed { Prefixed (program ws.now s) v arity i prefix most from n codes.old }
    ensures { Added
        (Extended (program ws.now s) (tables ws.now s) v arity i prefix)
        most from n codes.old result codes.new }
{
    if n > most {
        return n;
    }
    if i == MAX_ARITY {
        return insert(codes, from, n, prefix);
    }
    let next = i + 1;
    let longer = prefix * 128;
    if i >= arity {
        return extend(ws, s, names, v, arity, next, longer, most, from, n, codes);
    }
    let name = num(ws, s, v + 2 + i);
    let heads = s.constructors + OTHER_HEADS;
    let mut m = n;
    // From head to head of the set: each turn seeks the next one, which no range does.
    let mut h = next_of_two(names, name, 0, heads);
    while h < heads {
        m = extend(
            ws,
            s,
            names,
            v,
            arity,
            next,
            longer + h as u64,
            most,
            from,
            m,
            codes,
        );
        h = next_of_two(names, name, h + 1, heads);
    }
    m
}

// How many arguments a value of the tables has.
pub fn value_arity(ws: &[u16], s: Sizes, v: usize) -> usize
    requires whole { Whole ws.now s }
    requires v_bound { v < 65536 }
    ensures { result ≡ value_arity_of (program ws.now s) v }
{
    if tag(ws, s, v) == TAG_BUILD {
        num(ws, s, num(ws, s, v + 1))
    } else {
        0
    }
}

// Some argument has no head. The value then allows no letter, and to go through the others' heads could take long.
fn lacks_head(ws: &[u16], s: Sizes, names: &[u64], v: usize, arity: usize) -> bool
    requires heads_known { HeadsKnown ws.now s names.now }
    requires value_of { ValueOf (program ws.now s) v arity }
    ensures lacking { result ≡ true → Lacking (program ws.now s) v arity names.now }
    ensures not_lacking { result ≡ false → ¬ Lacking (program ws.now s) v arity names.now }
{
    for i in 0..arity {
        let argument = num(ws, s, v + 2 + i);
        if !meets(names, names, 2, argument, argument) {
            return true;
        }
    }
    false
}

// Puts the letters that the value v allows among the ascending words from..n; gives where they end.
pub fn add_value(
    ws: &[u16],
    s: Sizes,
    names: &[u64],
    v: usize,
    most: usize,
    from: usize,
    n: usize,
    codes: &mut [u64],
) -> usize
    requires heads_known { HeadsKnown ws.now s names.now }
    requires v_bound { (v < 65536) × Room most from n codes.old }
    ensures { Added (Allowed (program ws.now s) (tables ws.now s) v)
        most from n codes.old result codes.new }
{
    let arity = value_arity(ws, s, v);
    if lacks_head(ws, s, names, v, arity) {
        return n;
    }
    let head = row_head(ws, s, v) as u64;
    extend(ws, s, names, v, arity, 0, head, most, from, n, codes)
}
