// Which names have a value that a pattern may match: a set of names for each pattern that asks for one.
#![tactic(auto)]

ghost use Rattle.std.specs.Prelude.{◌≡◌, ◌*◌, ◌<◌};
ghost use Rattle.model.specs.Rows.{program};
ghost use Rattle.model.specs.Tables.{tables, some_of};
ghost use Rattle.bits.specs.Bits.{Row};
ghost use Rattle.lists.specs.Ready.{Ready};
ghost use Rattle.values.specs.Values.{width, Room};
ghost use Rattle.matching_sets.specs.Sets.{Joined};
ghost use Rattle.matching_names.specs.Names.{does_ask_names, does_value_fit, Unfitted, FittingBefore};

use lists::{flow, left, right};
use model::{Sizes, TAG_PATTERN_CONSTRUCTOR, TAG_PATTERN_HELD};
use program::rows::{is_class, num, tag};
use sets::{holds, put};
use values::width;

// How many words a set of names has.
pub fn name_width(s: Sizes) -> usize
    ensures { result ≡ width s.names }
{
    s.names / 64 + 1
}

// Is row q a constructor pattern with arguments, or a held name?
fn asks_names(ws: &[u16], s: Sizes, q: usize) -> bool
    requires { Ready ws.now s }
    ensures { result ≡ does_ask_names (program ws.now s) q }
{
    match tag(ws, s, q) {
        TAG_PATTERN_CONSTRUCTOR => {
            let made = num(ws, s, q);
            num(ws, s, made) > 0
        }
        TAG_PATTERN_HELD => true,
        _ => false,
    }
}

// May the pattern at row q match v, and is v a class where a held name stands there?
fn value_fits(ws: &[u16], s: Sizes, w: usize, may: &[u64], q: usize, v: usize) -> bool
    requires ready { Ready ws.now s }
    requires w_value { (w ≡ width s.rows) × (v < 64 * w) × Row may.now w q }
    ensures { result ≡ does_value_fit (program ws.now s) may.now q v }
{
    if !holds(may, w, q, v) {
        return false;
    }
    if tag(ws, s, q) == TAG_PATTERN_HELD {
        return is_class(ws, s, v);
    }
    true
}

// Puts the names with a value that fits the pattern at row q into set q.
fn fill_names(ws: &[u16], s: Sizes, may: &[u64], fitting: &mut [u64], q: usize)
    requires ready { Ready ws.now s }
    requires row { Row may.now (width s.rows) q × Row fitting.old (width s.names) q }
    ensures { Joined (width s.names) q
        (λ n. some_of (tables ws.now s).flow n
        (does_value_fit (program ws.now s) may.now q))
        fitting.old fitting.new }
{
    let w = width(s);
    let words = name_width(s);
    let l = flow(s);
    for i in 0..s.flows {
        let v = right(ws, l, i);
        if !value_fits(ws, s, w, may, q, v) {
            continue;
        }
        let n = left(ws, l, i);
        put(fitting, words, q, n);
    }
}

// The sets of names of all patterns that ask for one, in a table of zeros. (A function of its own for LLVM: within the
// check that calls it too few registers were left, and the innermost loop read two addresses anew from the stack.)
#[inline(never)]
pub fn fill_fitting(ws: &[u16], s: Sizes, may: &[u64], fitting: &mut [u64])
    requires ready { Ready ws.now s }
    requires room { Room (width s.rows) s.rows may.now }
    requires unfitted { Unfitted s.names s.rows fitting.old }
    ensures { FittingBefore (program ws.now s) (tables ws.now s) may.now
        fitting.new s.rows }
{
    for q in 0..s.rows {
        if !asks_names(ws, s, q) {
            continue;
        }
        fill_names(ws, s, may, fitting, q);
    }
}
