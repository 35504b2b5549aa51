// Where names are bound; refusal 4.
ghost use Rattle.std.specs.Prelude.{◌≡◌, ◌≤◌, ◌<◌, length};
ghost use Rattle.model.specs.Index.{first, all};
ghost use Rattle.model.specs.Rows.{program};
ghost use Rattle.model.specs.Scopes.{binds, bound_again, name_check_of};
ghost use Rattle.model.specs.Verify.{outcome};
ghost use Rattle.program.specs.Rows.{Whole, Fitted};
ghost use Rattle.scopes.specs.Tables.{BinderTable, Unbound, is_bound, found_below};

use layout::tables::entry;
use model::{Sizes, TAG_BUILD, TAG_GLOBAL, TAG_PARAMETER, TAG_PATTERN_NAME, TAG_SELF, Verdict};
use program::rows::{num, tag};

// The tags of the rows that bind a name.
fn binds(t: usize) -> bool
    ensures { result ≡ binds t }
{
    match t {
        TAG_BUILD..=TAG_SELF => true,
        TAG_GLOBAL | TAG_PARAMETER | TAG_PATTERN_NAME => true,
        _ => false,
    }
}

// No name has a binder yet: each has the number of rows.
fn blank_binders(ws: &[u16], s: Sizes, table: &mut [u16])
    requires whole { Whole ws.now s }
    requires names_in_bounds { s.names ≤ length table.old }
    ensures { Unbound (program ws.now s) s.names table.new }
{
    table[..s.names].fill(s.rows as u16);
}

// For each name the row that binds it first; the number of rows where none does.
fn fill_binders(ws: &[u16], s: Sizes, table: &mut [u16])
    requires whole { Whole ws.now s }
    requires names_in_bounds { s.names ≤ length table.old }
    ensures { BinderTable (program ws.now s) table.new }
{
    blank_binders(ws, s, table);
    for r in (0..s.rows).rev() {
        let n = num(ws, s, r);
        if n < s.names && binds(tag(ws, s, r)) {
            table[n] = r as u16;
        }
    }
}

// Row r binds a name that an earlier row binds.
fn is_again(ws: &[u16], s: Sizes, table: &[u16], r: usize) -> bool
    requires fitted { Fitted ws.now s }
    requires binder_table { BinderTable (program ws.now s) table.now × (r < s.rows) }
    ensures { result ≡ bound_again (program ws.now s) r }
{
    if binds(tag(ws, s, r)) {
        let n = num(ws, s, r);
        entry(table, n) != r
    } else {
        false
    }
}

// The first row that binds a name again.
fn first_again(ws: &[u16], s: Sizes, table: &[u16]) -> Option<usize>
    requires fitted { Fitted ws.now s }
    requires binder_table { BinderTable (program ws.now s) table.now }
    ensures { result ≡ found_below s.rows (first 0 s.rows (bound_again (program ws.now s))) }
{
    for r in 0..s.rows {
        if is_again(ws, s, table, r) {
            return Some(r);
        }
    }
    None
}

// Each name has a row that binds it.
fn all_bound(ws: &[u16], s: Sizes, table: &[u16]) -> bool
    requires whole { Whole ws.now s }
    requires binder_table { BinderTable (program ws.now s) table.now }
    ensures { result ≡ all 0 s.names (is_bound (program ws.now s)) }
{
    for n in 0..s.names {
        if entry(table, n) >= s.rows {
            return false;
        }
    }
    true
}

// Refusal 4: the first row that binds a name again, or a name that no row binds. The binders are left in the table.
pub fn name_check(ws: &[u16], s: Sizes, table: &mut [u16]) -> Result<(), Verdict>
    requires fitted { Fitted ws.now s }
    requires names_in_bounds { s.names ≤ length table.old }
    ensures value { result ≡ outcome (name_check_of (program ws.now s)) }
    ensures binder_table { BinderTable (program ws.now s) table.new }
{
    fill_binders(ws, s, table);
    match first_again(ws, s, table) {
        Some(r) => Err(Verdict::Name(4 + r)),
        None if all_bound(ws, s, table) => Ok(()),
        None => Err(Verdict::Name(1)),
    }
}
