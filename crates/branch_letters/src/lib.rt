// The letters that a branch reads: those kept for the state that it leads to, else derived; how they are kept.
#![tactic(auto)]

ghost use Rattle.std.specs.Prelude.{◌≡◌, true, ◌+◌, ◌*◌, ◌≤◌, ◌<◌, length, get_or, set};
ghost use Rattle.bits.specs.Bits.{Filled};
ghost use Rattle.model.specs.Words.{left};
ghost use Rattle.model.specs.Demands.{WithinLimits};
ghost use Rattle.model.specs.Limits.{present};
ghost use Rattle.model.specs.Rows.{program};
ghost use Rattle.model.specs.Tables.{tables};
ghost use Rattle.model.specs.Rules.{from_each, letters_read};
ghost use Rattle.lists.specs.Ready.{Ready};
ghost use Rattle.system_letters.specs.Letters.{letter_width_of, digits, LetterSets, Found};
ghost use Rattle.rules.specs.Derived.{owner_at, Reads, LetterTables};
ghost use Rattle.pattern_letters.specs.Tables.{ReadRoom};
ghost use Rattle.branch_letters.specs.Kept.{OwnersRoom, KeptFor, KeptTables, ReadTables};

use lists::{state_class, word};
use model::{MAX_ARITY, OTHER_HEADS, Sizes};
use pattern_letters::read_letters;
use sets::copy_into;
use system_letters::letter_width;

// The set of letters that is kept for state x, behind those of all digits and mail entries.
fn read_set(s: Sizes, x: usize) -> usize
    requires within_limits { WithinLimits present s }
    requires x_le_states { x ≤ s.states }
    ensures { result ≡ digits * (s.constructors + 2) + s.mails + x }
{
    (MAX_ARITY + 1) * (s.constructors + OTHER_HEADS) + s.mails + x
}

// Where it stands whose letters are kept for state x; a set of letters has so many words.
fn owner_at(ws: &[u16], s: Sizes, letters: &[u64], words: usize, x: usize) -> usize
    requires ready { Ready ws.now s }
    requires owners_room { OwnersRoom (program ws.now s) (tables ws.now s) letters.now }
    requires words_value { words ≡ letter_width_of (program ws.now s) (tables ws.now s) }
    requires x_lt_states { x < s.states }
    ensures { (result ≡ owner_at (program ws.now s) (tables ws.now s) x) ×
        (result < length letters.now) }
{
    let sets = read_set(s, s.states);
    sets * words + x
}

// Are the letters that are kept for state x those of class c that the branch reads whose pattern stands at row q?
fn is_kept(
    ws: &[u16],
    s: Sizes,
    letter_at: &[u16],
    letters: &[u64],
    c: usize,
    q: usize,
    x: usize,
) -> bool
    requires kept_tables { KeptTables ws.now s letter_at.now letters.now }
    requires q_lt_rows { q < s.rows }
    ensures { result ≡ true → KeptFor (program ws.now s) (tables ws.now s)
        letters.now c q x }
{
    if x >= s.states {
        return false;
    }
    if state_class(ws, s, x) != c {
        return false;
    }
    let words = letter_width(ws, s, letter_at);
    let at = owner_at(ws, s, letters, words, x);
    let owner = (q + 1) as u64;
    letters[at] == owner
}

// The letters of class c that the branch whose pattern stands at row q reads, and that leads to state x: those that are
// kept for that state, where they are this branch's, else derived.
pub fn branch_letters(
    ws: &[u16],
    s: Sizes,
    afters: &[u16],
    w: usize,
    fitting: &[u64],
    names: &[u64],
    letter_at: &[u16],
    letters: &[u64],
    c: usize,
    q: usize,
    x: usize,
    part: &mut [u64],
    found: &mut [u64],
)
    requires read_tables { ReadTables ws.now s afters.now w fitting.now names.now letter_at.now letters.now }
    requires read_room { ReadRoom ws.now s c q part.old found.old }
    ensures { Found (program ws.now s) (tables ws.now s) c
        (from_each (tables ws.now s).mail c
        (letters_read (program ws.now s) (tables ws.now s) q))
        found.new }
{
    if is_kept(ws, s, letter_at, letters, c, q, x) {
        let words = letter_width(ws, s, letter_at);
        let set = read_set(s, x);
        copy_into(found, letters, words, 0, set);
        return;
    }
    read_letters(
        ws, s, afters, w, fitting, names, letter_at, letters, c, q, part, found,
    );
}

// Puts the words of a set into another table, from word p on.
fn put_words(found: &[u64], words: usize, p: usize, letters: &mut [u64])
    requires words_in_bounds { words ≤ length found.now }
    requires words_in_bounds_2 { p + words ≤ length letters.old }
    ensures { Filled letters.old letters.new p words
        (λ j. get_or found.now j 0) }
{
    letters[p..p + words].copy_from_slice(&found[..words]);
}

// Puts 0 for n words, from word p on.
fn clear_words(letters: &mut [u64], p: usize, n: usize)
    requires { p + n ≤ length letters.old }
    ensures { Filled letters.old letters.new p n (λ j. 0) }
{
    letters[p..p + n].fill(0);
}

// Keeps the letters found for state x: those of its class that the branch reads whose pattern stands at row q.
pub fn keep_letters(
    ws: &[u16],
    s: Sizes,
    letter_at: &[u16],
    c: usize,
    q: usize,
    x: usize,
    found: &[u64],
    letters: &mut [u64],
)
    requires kept_tables { KeptTables ws.now s letter_at.now letters.old }
    requires x_lt_states { (x < s.states) × (left (tables ws.now s).states x ≡ c) × (q < s.rows) }
    requires found { Found (program ws.now s) (tables ws.now s) c
        (from_each (tables ws.now s).mail c (letters_read (program ws.now s) (tables ws.now s) q))
        found.now }
    ensures letter_sets { LetterSets (program ws.now s) (tables ws.now s) letters.new }
    ensures reads { Reads (program ws.now s) (tables ws.now s) letters.new }
{
    let words = letter_width(ws, s, letter_at);
    let set = read_set(s, x);
    let at = owner_at(ws, s, letters, words, x);
    put_words(found, words, set * words, letters);
    letters[at] = (q + 1) as u64;
}

// Says of each state that nothing is kept for it.
pub fn forget_letters(ws: &[u16], s: Sizes, letter_at: &[u16], letters: &mut [u64])
    requires letter_tables { LetterTables ws.now s letter_at.now letters.old }
    requires owners_room { OwnersRoom (program ws.now s) (tables ws.now s) letters.old }
    ensures letter_sets { LetterSets (program ws.now s) (tables ws.now s) letters.new }
    ensures reads { Reads (program ws.now s) (tables ws.now s) letters.new }
{
    let words = letter_width(ws, s, letter_at);
    let at = read_set(s, s.states) * words;
    clear_words(letters, at, s.states);
}
