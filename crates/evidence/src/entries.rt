// Refusal 7: each entry of the tables is in its range and above the one before in its list.
ghost use Rattle.std.specs.Prelude.{◌≡◌};
ghost use Rattle.model.specs.Rows.{program};
ghost use Rattle.model.specs.Tables.{tables, entry_check_of};
ghost use Rattle.model.specs.Verify.{outcome};
ghost use Rattle.program.specs.Rows.{Whole};
ghost use Rattle.lists.specs.Lists.{listed, thirds, Held};
ghost use Rattle.evidence.specs.Whole.{PartsWhole};
ghost use Rattle.evidence.specs.Ranges.{legal, ascends, in_place, checked};

use crate::ranges::{is_head, is_return, is_value};
use lists::{Span, flow, left, mail, right, states, third};
use model::{Sizes, Verdict};
use program::rows::is_class;

// The three lists.
#[derive(Clone, Copy)]
pub enum Table {
    Flow,
    Mail,
    States,
}

// What the entries of a list hold; those of the flow and the mail list have no third number.
fn in_range(ws: &[u16], s: Sizes, table: Table, a: usize, b: usize, d: usize) -> bool
    requires { Whole ws.now s }
    ensures { result ≡ legal (program ws.now s) table a b d }
{
    match table {
        Table::Flow => a < s.names && is_value(ws, s, b),
        Table::Mail => is_class(ws, s, a) && is_value(ws, s, b),
        Table::States => is_class(ws, s, a) && (is_head(ws, s, b) && is_return(ws, s, d)),
    }
}

// Entry i is above the one before: by the first column in which they differ.
fn ascends(ws: &[u16], list: Span, i: usize) -> bool
    requires { Held ws.now list }
    ensures { result ≡ ascends (listed ws.now list) (thirds ws.now list) i }
{
    if i == 0 {
        return true;
    }
    let before = i - 1;
    let x = left(ws, list, before);
    let a = left(ws, list, i);
    if x != a {
        return x < a;
    }
    let y = right(ws, list, before);
    let b = right(ws, list, i);
    if y != b {
        return y < b;
    }
    third(ws, list, before) < third(ws, list, i)
}

// Entry i is in its range and above the one before.
fn in_place(ws: &[u16], s: Sizes, table: Table, list: Span, i: usize) -> bool
    requires whole { Whole ws.now s }
    requires held { Held ws.now list }
    ensures { result ≡ in_place (program ws.now s) table (listed ws.now list)
        (thirds ws.now list) i }
{
    let a = left(ws, list, i);
    let b = right(ws, list, i);
    let d = third(ws, list, i);
    in_range(ws, s, table, a, b, d) && ascends(ws, list, i)
}

// Refusal 7 of one list, placed at the first column of the first entry that is not.
fn list_check(ws: &[u16], s: Sizes, table: Table, list: Span) -> Result<(), Verdict>
    requires whole { Whole ws.now s }
    requires held { Held ws.now list }
    ensures { result ≡ outcome (checked (program ws.now s) table (listed ws.now list)
        (thirds ws.now list) list.lefts) }
{
    for i in 0..list.size {
        if !in_place(ws, s, table, list, i) {
            return Err(Verdict::Entry(list.lefts + i));
        }
    }
    Ok(())
}

// The verdict of refusal 7: the flow list, the mail list, the states.
pub fn entry_check(ws: &[u16], s: Sizes) -> Result<(), Verdict>
    requires { PartsWhole ws.now s }
    ensures { result ≡ outcome (entry_check_of s (program ws.now s) (tables ws.now s)) }
{
    list_check(ws, s, Table::Flow, flow(s))?;
    list_check(ws, s, Table::Mail, mail(s))?;
    list_check(ws, s, Table::States, states(s))
}
