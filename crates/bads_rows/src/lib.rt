// The rows of the bads: what stands in a row, where an item and a bad end.
#![tactic(auto)]

ghost use Rattle.std.specs.Prelude.{◌≡◌, ◌+◌, ◌≤◌, ◌<◌};
ghost use Rattle.model.specs.Words.{left, right};
ghost use Rattle.model.specs.Rows.{program};
ghost use Rattle.model.specs.Bads.{bad_rows, bad_row_of, past_heads_of};
ghost use Rattle.bads_rows.specs.Items.{BadsUpto, BadStands, bad_end};
ghost use Rattle.ceilings_form.specs.Parts.{Whole};

use model::{Sizes, TAG_ARGUMENT, TAG_CLASS};
use program::rows::cell;

// The tag of a row of the bads, and 0 past the last row.
pub fn bad_tag(ws: &[u16], s: Sizes, r: usize) -> usize
    requires { Whole ws.now s }
    ensures { result ≡ left (bad_rows ws.now s) r }
{
    cell(ws, s.badrows, 4 + 2 * s.rows + 2, r) as usize
}

// The number of a row of the bads, and 0 past the last row.
pub fn bad_number(ws: &[u16], s: Sizes, r: usize) -> usize
    requires { Whole ws.now s }
    ensures { (result ≡ right (bad_rows ws.now s) r) × (result < 65536) }
{
    cell(ws, s.badrows, 4 + 2 * s.rows + 2 + s.badrows, r) as usize
}

// The row behind the heads that stand from row r on: of an item whose first row is r - 2, the row of its minimum.
pub fn past_heads(ws: &[u16], s: Sizes, r: usize) -> usize
    requires { Whole ws.now s }
    ensures { result ≡ past_heads_of (bad_rows ws.now s) r }
{
    // The first row that is no head ends this, and past the last row stands none: a `for` has no end to count to.
    let mut i = r;
    loop {
        if bad_tag(ws, s, i) != TAG_ARGUMENT {
            return i;
        }
        i += 1;
    }
}

// The row after the item at row r, which ends with its minimum.
pub fn next_item(ws: &[u16], s: Sizes, r: usize) -> usize
    requires whole { Whole ws.now s }
    requires r_le_badrows { r ≤ s.badrows }
    ensures value { result ≡ past_heads_of (bad_rows ws.now s) (r + 2) + 1 }
    ensures lower_bound { (r + 3 ≤ result) × (result ≤ s.badrows + 3) }
{
    past_heads(ws, s, r + 2) + 1
}

// The row after the bad that stands at row r: after its items and its last row.
pub fn next_bad(ws: &[u16], s: Sizes, r: usize) -> usize
    requires whole { Whole ws.now s }
    requires bad_stands { BadStands (program ws.now s) (bad_rows ws.now s) r }
    ensures { result ≡ bad_end (program ws.now s) (bad_rows ws.now s) r }
{
    // A walk from item to item, which are of several lengths: no index is counted.
    let mut i = next_item(ws, s, r);
    loop {
        if bad_tag(ws, s, i) != TAG_CLASS {
            return i + 1;
        }
        i = next_item(ws, s, i);
    }
}

// The first row of bad number j.
pub fn bad_row(ws: &[u16], s: Sizes, j: usize) -> usize
    requires whole { Whole ws.now s }
    requires bads_upto { BadsUpto ws.now s j }
    ensures { (result ≡ bad_row_of (program ws.now s) (bad_rows ws.now s) j) ×
        (result ≤ s.badrows) }
{
    let mut r: usize = 0;
    for i in 0..j {
        r = next_bad(ws, s, r);
    }
    r
}
