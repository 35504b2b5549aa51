// Where a state goes on. The states are found by guesses, which a table keeps by row for the class at hand; a guess is
// looked at before it is taken, so that nothing rests on what the table holds.
#![tactic(auto)]

ghost use Rattle.std.specs.Prelude.{◌≡◌, ◌+◌, ◌<◌, length};
ghost use Rattle.model.specs.Words.{left, right};
ghost use Rattle.model.specs.Tables.{tables, state, onward, state_at, state_index_of};
ghost use Rattle.lists.specs.Ready.{Ready};
ghost use Rattle.onward.specs.Guesses.{Guessed};

use lists::{state_class, state_location, state_near, state_return};
use model::Sizes;

// What the table has for row r, and 0 past its end.
fn guess(at: &[u16], r: usize) -> usize
    ensures { result < 65536 }
{
    if r < at.len() { at[r] as usize } else { 0 }
}

// Row r of the table becomes i, where it is another than the row noted last.
fn note(at: &mut [u16], last: usize, r: usize, i: usize)
    requires { i < 65536 }
    ensures { Guessed (i + 1) at.old at.new }
{
    if r == last {
        return;
    }
    if r < at.len() {
        at[r] = i as u16;
    }
}

// Where i is the first state of its class: for each row of the class's states, the first that stands there. Which rows
// it notes is left free, as nothing rests on a guess; a word that it changes is the number of a state.
pub fn guess_class(ws: &[u16], s: Sizes, at: &mut [u16], i: usize)
    requires { Ready ws.now s }
    ensures { Guessed s.states at.old at.new }
{
    let c = state_class(ws, s, i);
    if i > 0 {
        if state_class(ws, s, i - 1) == c {
            return;
        }
    }
    let mut last = s.rows;
    for j in i..s.states {
        if state_class(ws, s, j) != c {
            return;
        }
        let r = state_location(ws, s, j);
        note(at, last, r, j);
        last = r;
    }
}

// The number of the state at row r with the class and the return of state i; S where there is none. The states of two
// rows of one body return alike, so that the one sought is guessed as far behind the first of its row as state i is.
pub fn onward(ws: &[u16], s: Sizes, at: &[u16], i: usize, r: usize) -> usize
    requires ready { Ready ws.now s }
    requires i_lt_states { i < s.states }
    ensures { result ≡
        state_index_of (tables ws.now s) (onward (state_at (tables ws.now s) i) r) }
{
    let c = state_class(ws, s, i);
    let b = state_return(ws, s, i);
    let there = guess(at, r) + i;
    let here = guess(at, state_location(ws, s, i));
    let near = there.saturating_sub(here);
    state_near(ws, s, near, c, r, b)
}

// The number of the state at row r with the class of state i that returns to the row of state i, a call; S where there
// is none.
pub fn called(ws: &[u16], s: Sizes, at: &[u16], i: usize, r: usize) -> usize
    requires { Ready ws.now s }
    ensures { result ≡ state_index_of (tables ws.now s)
        (state (left (tables ws.now s).states i) r (right (tables ws.now s).states i)) }
{
    let c = state_class(ws, s, i);
    let call = state_location(ws, s, i);
    state_near(ws, s, guess(at, r), c, r, call)
}
