// The flow, mail and state lists, as the words of the message have them.
#![tactic(auto)]

ghost use Rattle.std.specs.Prelude.{◌≡◌, Bool, [], ◌∷◌, ◌+◌, ◌≤◌, ◌<◌, length, get_or};
ghost use Rattle.model.specs.Limits.{present};
ghost use Rattle.model.specs.Index.{first};
ghost use Rattle.model.specs.Words.{left, right};
ghost use Rattle.model.specs.Keys.{below};
ghost use Rattle.model.specs.Rows.{program};
ghost use Rattle.model.specs.Tables.{tables, has, state, state_index_of};
ghost use Rattle.model.specs.Demands.{WithinLimits};
ghost use Rattle.lists.specs.Lists.{Ascending, span_at, flow_span, mail_span, state_span, listed, thirds, Held};
ghost use Rattle.lists.specs.Lists.{key_at, place, is_entry_of, entry_index, range_from, range_to, reaches};
ghost use Rattle.lists.specs.Lists.{head_from, head_to};
ghost use Rattle.lists.specs.Ready.{Ready};

use model::Sizes;
use parts::tables_at;
use program::rows::column;

// Where a list stands: its size, and the words at which its columns begin; 0 for the third where it has two, as
// `span_at` and `thirds` of specs/ have it.
#[derive(Clone, Copy)]
pub struct Span {
    pub size: usize,
    pub lefts: usize,
    pub rights: usize,
    pub thirds: usize,
}

// A word of a table.
pub fn word(table: &[u16], k: usize) -> usize
    requires { k < length table.now }
    ensures { (result ≡ get_or table.now k 0) × (result < 65536) }
{
    table[k] as usize
}

// The list of n entries behind k others, with its third column from the word given on.
fn entries(s: Sizes, n: usize, k: usize, thirds: usize) -> Span
    requires within_limits { WithinLimits present s }
    requires k_bound { k ≤ s.flows + s.mails }
    ensures { result ≡ span_at s n k thirds }
{
    let at = tables_at(s) + 3;
    Span {
        size: n,
        lefts: at + k,
        rights: at + (s.flows + s.mails + s.states) + k,
        thirds,
    }
}

pub fn flow(s: Sizes) -> Span
    requires { WithinLimits present s }
    ensures { result ≡ flow_span s }
{
    entries(s, s.flows, 0, 0)
}

pub fn mail(s: Sizes) -> Span
    requires { WithinLimits present s }
    ensures { result ≡ mail_span s }
{
    entries(s, s.mails, s.flows, 0)
}

pub fn states(s: Sizes) -> Span
    requires { WithinLimits present s }
    ensures { result ≡ state_span s }
{
    let thirds = tables_at(s) + 3 + 2 * (s.flows + s.mails + s.states);
    entries(s, s.states, s.flows + s.mails, thirds)
}

// The first number of entry i, and 0 past the last entry.
pub fn left(ws: &[u16], l: Span, i: usize) -> usize
    requires { Held ws.now l }
    ensures { result ≡ left (listed ws.now l) i }
{
    column(ws, l.size, l.lefts, i)
}

// The second number of entry i, and 0 past the last entry.
pub fn right(ws: &[u16], l: Span, i: usize) -> usize
    requires { Held ws.now l }
    ensures { result ≡ right (listed ws.now l) i }
{
    column(ws, l.size, l.rights, i)
}

// The third number of entry i, and 0 past the last entry; 0 too where the list has two columns.
pub fn third(ws: &[u16], l: Span, i: usize) -> usize
    requires { Held ws.now l }
    ensures { result ≡ get_or (thirds ws.now l) i 0 }
{
    if l.thirds == 0 {
        0
    } else {
        column(ws, l.size, l.thirds, i)
    }
}

// Is entry i below the numbers (a, b, d)?
fn under(ws: &[u16], l: Span, a: usize, b: usize, d: usize, i: usize) -> bool
    requires { Held ws.now l }
    ensures { result ≡ below (key_at (listed ws.now l) (thirds ws.now l) i) (a ∷ b ∷ d ∷ []) }
{
    let x = left(ws, l, i);
    if x != a {
        return x < a;
    }
    let y = right(ws, l, i);
    if y != b {
        return y < b;
    }
    third(ws, l, i) < d
}

// The first entry of a list that ascends which is not below the numbers (a, b, d).
pub fn place(ws: &[u16], l: Span, a: usize, b: usize, d: usize) -> usize
    requires held { Held ws.now l }
    requires ascending { Ascending (listed ws.now l) (thirds ws.now l) }
    ensures { result ≡ place (listed ws.now l) (thirds ws.now l) (a ∷ b ∷ d ∷ []) }
{
    // The entries stand in columns, and no slice has them, so that `partition_point` has nothing to search.
    let mut low = 0;
    let mut high = l.size;
    while low < high {
        let mid = low + (high - low) / 2;
        if under(ws, l, a, b, d, mid) {
            low = mid + 1;
        } else {
            high = mid;
        }
    }
    low
}

// The first entry from i on that begins with a or a number behind it; the list's size where there is none.
pub fn reach(ws: &[u16], l: Span, a: usize, i: usize) -> usize
    requires held { Held ws.now l }
    requires i_le_size { i ≤ l.size }
    ensures { result ≡ first i l.size (reaches (listed ws.now l) a) }
{
    for k in i..l.size {
        if left(ws, l, k) >= a {
            return k;
        }
    }
    l.size
}

// Is entry i made of the numbers (a, b, d)?
fn is_entry(ws: &[u16], l: Span, a: usize, b: usize, d: usize, i: usize) -> bool
    requires { Held ws.now l }
    ensures { result ≡ is_entry_of (listed ws.now l) (thirds ws.now l) a b d i }
{
    if left(ws, l, i) != a {
        return false;
    }
    if right(ws, l, i) != b {
        return false;
    }
    third(ws, l, i) == d
}

// The number of the entry (a, b, d) in a list that ascends; the list's size where it is not there, as `state_index_of`
// of the model has it, which the functions below give.
fn find(ws: &[u16], l: Span, a: usize, b: usize, d: usize) -> usize
    requires held { Held ws.now l }
    requires ascending { Ascending (listed ws.now l) (thirds ws.now l) }
    ensures { result ≡ entry_index (listed ws.now l) (thirds ws.now l) a b d }
{
    let i = place(ws, l, a, b, d);
    if i >= l.size {
        return l.size;
    }
    if is_entry(ws, l, a, b, d, i) {
        i
    } else {
        l.size
    }
}

// The number of a state; S where it is not listed.
pub fn state_index(ws: &[u16], s: Sizes, c: usize, r: usize, b: usize) -> usize
    requires { Ready ws.now s }
    ensures { result ≡ state_index_of (tables ws.now s) (state c r b) }
{
    find(ws, states(s), c, r, b)
}

// The same: the guess where it is right, else by search. Nothing rests on the guess.
pub fn state_near(ws: &[u16], s: Sizes, guess: usize, c: usize, r: usize, b: usize) -> usize
    requires { Ready ws.now s }
    ensures { result ≡ state_index_of (tables ws.now s) (state c r b) }
{
    let list = states(s);
    if guess >= s.states {
        return find(ws, list, c, r, b);
    }
    if is_entry(ws, list, c, r, b, guess) {
        guess
    } else {
        find(ws, list, c, r, b)
    }
}

// The states of class c at row r stand from here ...
pub fn heads_from(ws: &[u16], s: Sizes, c: usize, r: usize) -> usize
    requires { Ready ws.now s }
    ensures { result ≡ head_from (tables ws.now s) c r }
{
    place(ws, states(s), c, r, 0)
}

// ... up to here.
pub fn heads_to(ws: &[u16], s: Sizes, c: usize, r: usize) -> usize
    requires ready { Ready ws.now s }
    requires r_bound { r < 65536 }
    ensures { result ≡ head_to (tables ws.now s) c r }
{
    place(ws, states(s), c, r + 1, 0)
}

// Does the flow list have the pair?
pub fn has_flow(ws: &[u16], s: Sizes, n: usize, v: usize) -> bool
    requires { Ready ws.now s }
    ensures { result ≡ has (tables ws.now s).flow n v }
{
    find(ws, flow(s), n, v, 0) < s.flows
}

// The value of flow entry j.
pub fn flow_value(ws: &[u16], s: Sizes, j: usize) -> usize
    requires { Ready ws.now s }
    ensures { result ≡ right (tables ws.now s).flow j }
{
    right(ws, flow(s), j)
}

// The value of mail entry j.
pub fn mail_value(ws: &[u16], s: Sizes, j: usize) -> usize
    requires { Ready ws.now s }
    ensures { result ≡ right (tables ws.now s).mail j }
{
    right(ws, mail(s), j)
}

// The class of state j.
pub fn state_class(ws: &[u16], s: Sizes, j: usize) -> usize
    requires { Ready ws.now s }
    ensures { result ≡ left (tables ws.now s).states j }
{
    left(ws, states(s), j)
}

// The head of state j.
pub fn state_location(ws: &[u16], s: Sizes, j: usize) -> usize
    requires { Ready ws.now s }
    ensures { result ≡ right (tables ws.now s).states j }
{
    right(ws, states(s), j)
}

// The row that state j returns to; R where nothing is pushed.
pub fn state_return(ws: &[u16], s: Sizes, j: usize) -> usize
    requires { Ready ws.now s }
    ensures { result ≡ get_or (tables ws.now s).returns j 0 }
{
    third(ws, states(s), j)
}

// The mail entries of a class stand from here ...
pub fn mail_from(ws: &[u16], s: Sizes, c: usize) -> usize
    requires { Ready ws.now s }
    ensures { result ≡ range_from (tables ws.now s).mail c }
{
    place(ws, mail(s), c, 0, 0)
}

// ... up to here.
pub fn mail_to(ws: &[u16], s: Sizes, c: usize) -> usize
    requires ready { Ready ws.now s }
    requires c_le_rows { c ≤ s.rows }
    ensures { result ≡ range_to (tables ws.now s).mail c }
{
    place(ws, mail(s), c + 1, 0, 0)
}
