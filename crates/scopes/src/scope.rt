// Where names hold; refusal 5. The tables are lent: binders by name, ends and next heads by row.
ghost use Rattle.std.specs.Prelude.{◌≡◌, true, ◌≤◌, ◌<◌, length};
ghost use Rattle.model.specs.Index.{first};
ghost use Rattle.model.specs.Rows.{program, tag, is_head_of};
ghost use Rattle.model.specs.Scopes.{binds, uses, is_held_in, in_scope, out_of_scope, scope_check_of};
ghost use Rattle.model.specs.Verify.{outcome};
ghost use Rattle.program.specs.Rows.{Whole, Fitted};
ghost use Rattle.layout.specs.Tables.{Ends};
ghost use Rattle.scopes.specs.Tables.{BinderTable, HeadTable, Laid, found_below};

use layout::ends::rest_of;
use layout::tables::entry;
use model::{Sizes, TAG_CASE, TAG_GIVE, TAG_GLOBAL, TAG_OPERAND, TAG_PATTERN_HELD, Verdict};
use program::rows::{num, tag};
use rooms::row_words16;

// A head is a row with a tag from 1 to 9.
fn is_head(t: usize) -> bool
    ensures { result ≡ is_head_of t }
{
    1 <= t && t <= 9
}

// The tags of the rows that read a name.
fn uses(t: usize) -> bool
    ensures { result ≡ uses t }
{
    match t {
        TAG_GIVE | TAG_CASE | TAG_OPERAND | TAG_PATTERN_HELD => true,
        _ => false,
    }
}

// For each row the next head from there on; the number of rows where there is none.
fn fill_next_heads(ws: &[u16], s: Sizes, table: &mut [u16])
    requires whole { Whole ws.now s }
    requires rows_in_bounds { s.rows ≤ length table.old }
    ensures { HeadTable (program ws.now s) table.new }
{
    let mut head = s.rows;
    for r in (0..s.rows).rev() {
        if is_head(tag(ws, s, r)) {
            head = r;
        }
        table[r] = head as u16;
    }
}

// The head of the expression in which the name that row b binds holds.
fn holds_in(ws: &[u16], s: Sizes, afters: &[u16], heads: &[u16], b: usize) -> usize
    requires laid { Laid ws.now s afters.now heads.now }
    requires b_lt_rows { b < s.rows }
    ensures { result ≡ is_held_in (program ws.now s) b }
{
    if is_head(tag(ws, s, b)) {
        rest_of(ws, s, afters, b)
    } else {
        entry(heads, b)
    }
}

// A name that row b binds holds at row r.
fn is_in_scope(ws: &[u16], s: Sizes, afters: &[u16], heads: &[u16], b: usize, r: usize) -> bool
    requires laid { Laid ws.now s afters.now heads.now }
    requires r_lt_rows { (r < s.rows) × (b < s.rows) × (binds (tag (program ws.now s) b) ≡ true) }
    ensures { result ≡ in_scope (program ws.now s) b r }
{
    if tag(ws, s, b) == TAG_GLOBAL {
        return true;
    }
    let from = holds_in(ws, s, afters, heads, b);
    if from > r {
        return false;
    }
    let end = entry(afters, from);
    r < end
}

// Row r reads a name outside its scope.
fn is_out(ws: &[u16], s: Sizes, afters: &[u16], heads: &[u16], names: &[u16], r: usize) -> bool
    requires laid { Laid ws.now s afters.now heads.now }
    requires binder_table { BinderTable (program ws.now s) names.now × (r < s.rows) }
    ensures { result ≡ out_of_scope (program ws.now s) r }
{
    if !uses(tag(ws, s, r)) {
        return false;
    }
    let b = entry(names, num(ws, s, r));
    if b >= s.rows {
        return true;
    }
    !is_in_scope(ws, s, afters, heads, b, r)
}

// The first row that reads a name outside its scope.
fn first_out(ws: &[u16], s: Sizes, afters: &[u16], heads: &[u16], names: &[u16]) -> Option<usize>
    requires laid { Laid ws.now s afters.now heads.now }
    requires binder_table { BinderTable (program ws.now s) names.now }
    ensures { result ≡ found_below s.rows (first 0 s.rows (out_of_scope (program ws.now s))) }
{
    for r in 0..s.rows {
        if is_out(ws, s, afters, heads, names, r) {
            return Some(r);
        }
    }
    None
}

// Refusal 5: the first row that reads a name outside its scope.
pub fn scope_check(ws: &[u16], s: Sizes, afters: &[u16], names: &[u16]) -> Result<(), Verdict>
    requires fitted { Fitted ws.now s }
    requires ends { Ends (program ws.now s) afters.now × BinderTable (program ws.now s) names.now }
    ensures { result ≡ outcome (scope_check_of (program ws.now s)) }
{
    let mut heads = row_words16();
    fill_next_heads(ws, s, &mut heads);
    match first_out(ws, s, afters, &heads, names) {
        Some(r) => Err(Verdict::Scope(4 + r)),
        None => Ok(()),
    }
}
