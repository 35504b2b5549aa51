// The letters that a branch reads of the mail of its class, as a set.
#![tactic(auto)]

ghost use Rattle.std.specs.Prelude.{◌≡◌, true, ◌||◌, ◌+◌, ◌-◌, ◌*◌, ◌≤◌, ◌<◌, eqb};
ghost use Rattle.bits.specs.Bits.{Row};
ghost use Rattle.model.specs.Demands.{WithinLimits};
ghost use Rattle.model.specs.Limits.{present, max_arity, max_depth};
ghost use Rattle.model.specs.Rows.{program, tag};
ghost use Rattle.model.specs.Tables.{tables};
ghost use Rattle.model.specs.Rules.{from_each, letters_read};
ghost use Rattle.lists.specs.Ready.{Ready};
ghost use Rattle.layout.specs.Tables.{Ends};
ghost use Rattle.matching.specs.Patterns.{Pattern};
ghost use Rattle.system_letters.specs.Letters.{letter_width_of, Found};
ghost use Rattle.pattern_heads.specs.Fitting.{begins};
ghost use Rattle.pattern_letters.specs.Picked.{leaves_argument, leaves, Left};
ghost use Rattle.pattern_letters.specs.Tables.{LeavingTables, PatternTables, ReadRoom};

use lists::{mail_from, mail_to, mail_value, word};
use masks::next_of_two;
use model::{OTHER_HEADS, Sizes, TAG_PATTERN_CONSTRUCTOR, TAG_PATTERN_HELD};
use pattern_heads::{begins, head_fits};
use program::rows::{num, tag};
use sent_letters::entry_set;
use sets::{clear, copy_into, join_into, meets, take_from};
use system_letters::letter_width;

// Is the pattern at row q a constructor's or a held name, which not every value may match?
fn asks(ws: &[u16], s: Sizes, q: usize) -> bool
    requires { Ready ws.now s }
    ensures { result ≡
        (eqb (tag (program ws.now s) q) 31 || eqb (tag (program ws.now s) q) 33) }
{
    let kind = tag(ws, s, q);
    if kind == TAG_PATTERN_CONSTRUCTOR {
        true
    } else {
        kind == TAG_PATTERN_HELD
    }
}

// The set of the letters whose argument i has the head h: digit 0 of a letter is its number.
fn argument_set(s: Sizes, i: usize, h: usize) -> usize
    requires within_limits { WithinLimits present s }
    requires i_lt_max_arity { (i < max_arity) × (h < s.constructors + 2) }
    ensures { result ≡ (i + 1) * (s.constructors + 2) + h }
{
    (i + 1) * (s.constructors + OTHER_HEADS) + h
}

// Takes the letters from part whose argument i, of the name n, has a head that the subpattern at row q may not match:
// one head after the other of those that the name has.
fn leave_argument(
    ws: &[u16],
    s: Sizes,
    w: usize,
    fitting: &[u64],
    names: &[u64],
    letters: &[u64],
    words: usize,
    i: usize,
    n: usize,
    q: usize,
    part: &mut [u64],
)
    requires leaving_tables { LeavingTables ws.now s w fitting.now names.now letters.now words }
    requires i_lt_max_arity { (i < max_arity) × (n < s.names) }
    requires pattern { Pattern (program ws.now s) (max_depth - 1) q × Row part.old words 0 }
    ensures { Left (program ws.now s) (tables ws.now s)
        (leaves_argument (program ws.now s) (tables ws.now s) i n q) part.old
        part.new }
{
    if !asks(ws, s, q) {
        return;
    }
    let end = s.constructors + OTHER_HEADS;
    let mut from = 0;
    // No `for`: of many heads the name has few, and `next_of_two` jumps from one that it has to the next.
    loop {
        let h = next_of_two(names, n, from, end);
        if h >= end {
            return;
        }
        from = h + 1;
        if head_fits(ws, s, w, fitting, names, n, q, h) {
            continue;
        }
        let set = argument_set(s, i, h);
        take_from(part, letters, words, 0, set);
    }
}

// Takes the letters of the value v, with whose constructor the pattern at row q begins, from part that it does not
// leave.
fn leave_letters(
    ws: &[u16],
    s: Sizes,
    afters: &[u16],
    w: usize,
    fitting: &[u64],
    names: &[u64],
    letters: &[u64],
    words: usize,
    q: usize,
    v: usize,
    part: &mut [u64],
)
    requires leaving_tables { LeavingTables ws.now s w fitting.now names.now letters.now words }
    requires ends { Ends (program ws.now s) afters.now }
    requires pattern { Pattern (program ws.now s) max_depth q ×
        (begins (program ws.now s) (tables ws.now s) q v ≡ true) × Row part.old words 0 }
    ensures { Left (program ws.now s) (tables ws.now s)
        (leaves (program ws.now s) (tables ws.now s) q v) part.old
        part.new }
{
    if tag(ws, s, q) != TAG_PATTERN_CONSTRUCTOR {
        return;
    }
    let made = num(ws, s, q);
    let arity = num(ws, s, made);
    let mut sub = q + 1;
    for i in 0..arity {
        let name = num(ws, s, v + 2 + i);
        leave_argument(ws, s, w, fitting, names, letters, words, i, name, sub, part);
        sub = word(afters, sub);
    }
}

// The letters of class c that the branch whose pattern stands at row q reads: of each value of the class's mail that it
// may match those that it leaves, so that arguments of different values are never mixed. A value without letters is
// passed over before its arguments are looked at.
pub fn read_letters(
    ws: &[u16],
    s: Sizes,
    afters: &[u16],
    w: usize,
    fitting: &[u64],
    names: &[u64],
    letter_at: &[u16],
    letters: &[u64],
    c: usize,
    q: usize,
    part: &mut [u64],
    found: &mut [u64],
)
    requires pattern_tables { PatternTables ws.now s afters.now w fitting.now names.now letter_at.now letters.now }
    requires read_room { ReadRoom ws.now s c q part.old found.old }
    ensures { Found (program ws.now s) (tables ws.now s) c
        (from_each (tables ws.now s).mail c
        (letters_read (program ws.now s) (tables ws.now s) q))
        found.new }
{
    let words = letter_width(ws, s, letter_at);
    clear(found, words, 0);
    let from = mail_from(ws, s, c);
    let to = mail_to(ws, s, c);
    for j in from..to {
        let v = mail_value(ws, s, j);
        if !begins(ws, s, names, q, v) {
            continue;
        }
        let allowed = entry_set(s, j);
        if !meets(letters, letters, words, allowed, allowed) {
            continue;
        }
        copy_into(part, letters, words, 0, allowed);
        leave_letters(ws, s, afters, w, fitting, names, letters, words, q, v, part);
        join_into(found, part, words, 0, 0);
    }
}
