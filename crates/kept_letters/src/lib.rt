// The letters that the branches of receives read, derived once: for each branch of each state that receives they are
// kept for the state that it leads to. What is kept is looked at before it is taken (`branch_letters`), so nothing is
// promised of how much is.
#![tactic(auto)]

ghost use Rattle.std.specs.Prelude.{◌≡◌, ◌+◌, ◌-◌, ◌≤◌, ◌<◌};
ghost use Rattle.model.specs.Limits.{max_depth};
ghost use Rattle.model.specs.Rows.{program, tag};
ghost use Rattle.model.specs.Tables.{tables};
ghost use Rattle.matching.specs.Patterns.{Pattern};
ghost use Rattle.system_letters.specs.Letters.{LetterSets};
ghost use Rattle.rules.specs.Derived.{Reads};
ghost use Rattle.pattern_letters.specs.Tables.{PatternTables};
ghost use Rattle.branch_letters.specs.Kept.{OwnersRoom, ReadTables};

use branch_letters::{branch_letters, forget_letters, keep_letters};
use lists::{state_class, state_index, state_location, state_return, word};
use model::{Sizes, TAG_RECEIVE};
use positions::branch_body;
use program::rows::{num, tag};
use system_letters::LETTER_WORDS;

// Keeps the letters of class c that the branch with its pattern at row q reads for state x, if that is of class c.
fn keep_branch(
    ws: &[u16],
    s: Sizes,
    afters: &[u16],
    w: usize,
    fitting: &[u64],
    names: &[u64],
    letter_at: &[u16],
    c: usize,
    q: usize,
    x: usize,
    letters: &mut [u64],
)
    requires read_tables { ReadTables ws.now s afters.now w fitting.now names.now letter_at.now letters.old }
    requires c_le_rows { (c ≤ s.rows) × Pattern (program ws.now s) max_depth q }
    ensures letter_sets { LetterSets (program ws.now s) (tables ws.now s) letters.new }
    ensures reads { Reads (program ws.now s) (tables ws.now s) letters.new }
{
    if x >= s.states {
        return;
    }
    if state_class(ws, s, x) != c {
        return;
    }
    let mut part = [0u64; LETTER_WORDS];
    let mut found = [0u64; LETTER_WORDS];
    // The state before may be the same body with the return before, for which the same letters are kept.
    let earlier = x.saturating_sub(1);
    branch_letters(
        ws, s, afters, w, fitting, names, letter_at, letters, c, q, earlier, &mut part, &mut found,
    );
    keep_letters(ws, s, letter_at, c, q, x, &found, letters);
}

// Keeps the letters that the branches of state i read, which receives at row r.
fn keep_receive(
    ws: &[u16],
    s: Sizes,
    afters: &[u16],
    w: usize,
    fitting: &[u64],
    names: &[u64],
    letter_at: &[u16],
    i: usize,
    r: usize,
    letters: &mut [u64],
)
    requires read_tables { ReadTables ws.now s afters.now w fitting.now names.now letter_at.now letters.old }
    requires i_lt_states { (i < s.states) × (tag (program ws.now s) r ≡ 9) }
    ensures letter_sets { LetterSets (program ws.now s) (tables ws.now s) letters.new }
    ensures reads { Reads (program ws.now s) (tables ws.now s) letters.new }
{
    let c = state_class(ws, s, i);
    let back = state_return(ws, s, i);
    let m = num(ws, s, r);
    let mut q = r + 1;
    for b in 0..m {
        let row = q;
        let e = branch_body(ws, s, afters, row);
        q = word(afters, e);
        let x = state_index(ws, s, c, e, back);
        keep_branch(
            ws, s, afters, w, fitting, names, letter_at, c, row, x, letters,
        );
    }
}

// Keeps the letters that all receives read.
pub fn fill_reads(
    ws: &[u16],
    s: Sizes,
    afters: &[u16],
    w: usize,
    fitting: &[u64],
    names: &[u64],
    letter_at: &[u16],
    letters: &mut [u64],
)
    requires pattern_tables { PatternTables ws.now s afters.now w fitting.now names.now letter_at.now letters.old }
    requires owners_room { OwnersRoom (program ws.now s) (tables ws.now s) letters.old }
    ensures letter_sets { LetterSets (program ws.now s) (tables ws.now s) letters.new }
    ensures reads { Reads (program ws.now s) (tables ws.now s) letters.new }
{
    forget_letters(ws, s, letter_at, letters);
    for i in 0..s.states {
        let r = state_location(ws, s, i);
        if tag(ws, s, r) != TAG_RECEIVE {
            continue;
        }
        keep_receive(ws, s, afters, w, fitting, names, letter_at, i, r, letters);
    }
}
