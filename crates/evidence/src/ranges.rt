// What document 01 calls a class, a value and a head, and document 02 a return, as tests on a number.
ghost use Rattle.std.specs.Prelude.{◌≡◌};
ghost use Rattle.model.specs.Rows.{program, tag, is_head_of};
ghost use Rattle.model.specs.Tables.{is_value_of, is_return_of};
ghost use Rattle.program.specs.Rows.{Whole};

use model::{Sizes, TAG_BUILD, TAG_CALL, TAG_FUNCTION, TAG_GLOBAL, TAG_SPAWN};
use program::rows::tag;

// A row with tag 2, a function, or a class.
pub fn is_value(ws: &[u16], s: Sizes, v: usize) -> bool
    requires { Whole ws.now s }
    ensures { result ≡ is_value_of (program ws.now s) v }
{
    match tag(ws, s, v) {
        TAG_BUILD | TAG_FUNCTION | TAG_SPAWN | TAG_GLOBAL => true,
        _ => v == s.rows,
    }
}

// A row with a tag from 1 to 9.
pub fn is_head(ws: &[u16], s: Sizes, r: usize) -> bool
    requires { Whole ws.now s }
    ensures { result ≡ is_head_of (tag (program ws.now s) r) }
{
    let t = tag(ws, s, r);
    1 <= t && t <= 9
}

// The third number of a state: a call row, or R where nothing is pushed.
pub fn is_return(ws: &[u16], s: Sizes, b: usize) -> bool
    requires { Whole ws.now s }
    ensures { result ≡ is_return_of (program ws.now s) b }
{
    tag(ws, s, b) == TAG_CALL || b == s.rows
}
