// How many rules and rows the listing has: the rows of the rules of one state.
#![tactic(auto)]

ghost use Rattle.std.specs.Prelude.{◌≡◌, ◌*◌, ◌≤◌};
ghost use Rattle.model.specs.Words.{right};
ghost use Rattle.model.specs.Rows.{program, tag, kind};
ghost use Rattle.model.specs.Tables.{tables};
ghost use Rattle.lists.specs.Ready.{Ready};
ghost use Rattle.system_totals.specs.Lines.{third_tag_of, row_count};

use lists::state_location;
use model::{Sizes, TAG_PUTS, TAG_READS, TAG_RECEIVE, TAG_SEND, TAG_SPAWN, TAG_STARTS};
use program::rows::tag;

#[derive(Clone, Copy)]
pub struct Totals {
    pub rules: usize,
    pub rows: usize,
}

// The tag of the head of state i.
pub fn state_head(ws: &[u16], s: Sizes, i: usize) -> usize
    requires { Ready ws.now s }
    ensures { result ≡ tag (program ws.now s) (right (tables ws.now s).states i) }
{
    tag(ws, s, state_location(ws, s, i))
}

// The tag of the third row of each rule at a head of this tag, and none where its rules have two rows.
pub fn third_tag(head: usize) -> Option<u32>
    ensures { result ≡ third_tag_of (kind head) }
{
    match head {
        TAG_SEND => Some(TAG_PUTS),
        TAG_SPAWN => Some(TAG_STARTS),
        TAG_RECEIVE => Some(TAG_READS),
        _ => None,
    }
}

// The rows of n rules at a head of this tag.
pub fn row_total(head: usize, n: usize) -> usize
    requires { n ≤ 65536 }
    ensures { (result ≡ n * row_count (third_tag_of (kind head))) × (result ≤ 3 * n) }
{
    match third_tag(head) {
        None => n * 2,
        Some(_) => n * 3,
    }
}
