// Which values the pattern of a branch may match by their constructors, and which heads fit a subpattern.
#![tactic(auto)]

ghost use Rattle.std.specs.Prelude.{◌≡◌, true, ◌⊎◌, ◌+◌, ◌-◌, ◌≤◌, ◌<◌};
ghost use Rattle.model.specs.Limits.{max_depth};
ghost use Rattle.model.specs.Rows.{program, tag};
ghost use Rattle.model.specs.Tables.{tables};
ghost use Rattle.model.specs.Closed.{is_same_constructor};
ghost use Rattle.lists.specs.Ready.{Ready};
ghost use Rattle.matching.specs.Patterns.{Pattern, does_equal_some};
ghost use Rattle.system_letters.specs.Letters.{NameHeads};
ghost use Rattle.pattern_heads.specs.Fitting.{begins, does_head_fit, has_head};
ghost use Rattle.pattern_heads.specs.Fitting.{MatchTables};

use lists::has_flow;
use model::{Sizes, TAG_BUILD, TAG_PATTERN_CONSTRUCTOR, TAG_PATTERN_HELD};
use program::rows::{is_class, num, tag};
use sets::holds;
use system_letters::row_head;

// Is v a build row of the constructor of the pattern at row q?
fn same_constructor(ws: &[u16], s: Sizes, q: usize, v: usize) -> bool
    requires ready { Ready ws.now s }
    requires v_le_rows { v ≤ s.rows }
    ensures { result ≡ is_same_constructor (program ws.now s) q v }
{
    if tag(ws, s, v) == TAG_BUILD {
        num(ws, s, v + 1) == num(ws, s, q)
    } else {
        false
    }
}

// May v be equal to a value of the name k? A class is one of them; of what is built one of the same constructor is.
fn equals_some(ws: &[u16], s: Sizes, names: &[u64], k: usize, v: usize) -> bool
    requires ready { Ready ws.now s }
    requires name_heads { NameHeads (program ws.now s) (tables ws.now s) names.now }
    requires k_lt_names { k < s.names }
    ensures { result ≡ does_equal_some (program ws.now s) (tables ws.now s) k v }
{
    if is_class(ws, s, v) {
        return has_flow(ws, s, k, v);
    }
    if tag(ws, s, v) != TAG_BUILD {
        return false;
    }
    let h = row_head(ws, s, v);
    holds(names, 2, k, h)
}

// May the pattern of a branch, at row q, match the value v? Of a constructor's only the constructor is asked: where no
// value of an argument fits, no letter is left.
pub fn begins(ws: &[u16], s: Sizes, names: &[u64], q: usize, v: usize) -> bool
    requires ready { Ready ws.now s }
    requires name_heads { NameHeads (program ws.now s) (tables ws.now s) names.now }
    requires pattern { Pattern (program ws.now s) max_depth q }
    requires v_le_rows { v ≤ s.rows }
    ensures { result ≡ begins (program ws.now s) (tables ws.now s) q v }
{
    let kind = tag(ws, s, q);
    if kind == TAG_PATTERN_CONSTRUCTOR {
        return same_constructor(ws, s, q, v);
    }
    if kind == TAG_PATTERN_HELD {
        let k = num(ws, s, q);
        return equals_some(ws, s, names, k, v);
    }
    true
}

// Has the name n, which has a value with the head h, one with it that the subpattern at row q may match? A constructor
// has one head; a held name may match each value of a constructor that it has a value of, no function, and classes of
// its own.
pub fn head_fits(
    ws: &[u16],
    s: Sizes,
    w: usize,
    fitting: &[u64],
    names: &[u64],
    n: usize,
    q: usize,
    h: usize,
) -> bool
    requires cases { MatchTables ws.now s w fitting.now names.now }
    requires pattern { Pattern (program ws.now s) (max_depth - 1) q }
    requires fact { (tag (program ws.now s) q ≡ 31) ⊎ (tag (program ws.now s) q ≡ 33) }
    requires n_lt_names { (n < s.names) × (h < s.constructors + 2) }
    requires h_value { has_head (program ws.now s) (tables ws.now s) n h ≡ true }
    ensures { result ≡ does_head_fit (program ws.now s) (tables ws.now s) n q h }
{
    let k = num(ws, s, q);
    if tag(ws, s, q) == TAG_PATTERN_CONSTRUCTOR {
        if h != k {
            return false;
        }
        if num(ws, s, k) == 0 {
            return true;
        }
        return holds(fitting, w, q, n);
    }
    if h < s.constructors {
        return holds(names, 2, k, h);
    }
    if h == s.constructors {
        return false;
    }
    holds(fitting, w, q, n)
}
