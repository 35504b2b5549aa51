// The heads of values, which of them the values of each name have, and how many letters and counters there are.
#![tactic(auto)]

ghost use Rattle.std.specs.Prelude.{◌≡◌, ◌*◌, ◌≤◌, ◌<◌, length};
ghost use Rattle.model.specs.Rows.{program};
ghost use Rattle.model.specs.Letters.{row_head_of};
ghost use Rattle.model.specs.Tables.{tables};
ghost use Rattle.model.specs.Counters.{letter_count_of};
ghost use Rattle.program.specs.Rows.{Whole};
ghost use Rattle.lists.specs.Ready.{Ready};
ghost use Rattle.system_letters.specs.Letters.{NameHeads, ClassLetters, letter_width_of};

use lists::{flow, left, right, word};
use model::{ADDRESS_HEAD, MAX_COUNTERS, Sizes, TAG_BUILD, TAG_FUNCTION, TAG_GLOBAL};
use program::rows::{num, tag};
use sets::put;

// A set of letters has at most so many words: a bit for each letter, one word more where they fill all.
pub const LETTER_WORDS: usize = MAX_COUNTERS / 64 + 1;

// The head of a value of the tables: a constructor's number, C for a function, C + 1 for an address.
pub fn row_head(ws: &[u16], s: Sizes, v: usize) -> usize
    requires { Whole ws.now s }
    ensures { result ≡ row_head_of (program ws.now s) v }
{
    match tag(ws, s, v) {
        TAG_BUILD => num(ws, s, v + 1),
        TAG_FUNCTION | TAG_GLOBAL => s.constructors,
        _ => s.constructors + ADDRESS_HEAD,
    }
}

// Which heads the values of each name have.
pub fn fill_names(ws: &[u16], s: Sizes, names: &mut [u64])
    requires ready { Ready ws.now s }
    requires names_in_bounds { s.names * 2 ≤ length names.old }
    ensures { NameHeads (program ws.now s) (tables ws.now s) names.new }
{
    names[..s.names * 2].fill(0);
    let list = flow(s);
    for i in 0..s.flows {
        let n = left(ws, list, i);
        let h = row_head(ws, s, right(ws, list, i));
        put(names, 2, n, h);
    }
}

// How many letters mail allows: the number of the first one of a class behind the last.
pub fn letter_count(ws: &[u16], s: Sizes, letter_at: &[u16]) -> usize
    requires ready { Ready ws.now s }
    requires class_letters { ClassLetters (program ws.now s) (tables ws.now s) letter_at.now }
    ensures { (result ≡ letter_count_of (program ws.now s) (tables ws.now s)) × (result < 65536) }
{
    word(letter_at, s.rows + 1)
}

// The words of a set of letters.
pub fn letter_width(ws: &[u16], s: Sizes, letter_at: &[u16]) -> usize
    requires ready { Ready ws.now s }
    requires class_letters { ClassLetters (program ws.now s) (tables ws.now s) letter_at.now }
    ensures { result ≡ letter_width_of (program ws.now s) (tables ws.now s) }
{
    letter_count(ws, s, letter_at) / 64 + 1
}
