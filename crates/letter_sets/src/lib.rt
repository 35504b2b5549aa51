// The sets of letters: by what a digit is, and by mail entry.
#![tactic(auto)]

ghost use Rattle.std.specs.Prelude.{◌≡◌, ◌≤◌, ◌<◌};
ghost use Rattle.model.specs.Limits.{max_arity};
ghost use Rattle.model.specs.Rows.{program};
ghost use Rattle.model.specs.Tables.{tables};
ghost use Rattle.system_letters.specs.Letters.{LetterSets, letter_width_of};
ghost use Rattle.value_letters.specs.Letters.{HeadsKnown};
ghost use Rattle.letter_sets.specs.Sets.{LettersListed, LettersKnown, ValueTold, LetterRoom, LettersEmpty};
ghost use Rattle.letter_sets.specs.Sets.{digit_of, code_allowed, PutAll, DigitRows};
ghost use Rattle.letter_sets.specs.Sets.{in_digits, all_digits, in_allowed, all_allowed};

use lists::{left, mail, mail_value, word};
use model::{MAX_ARITY, OTHER_HEADS, Sizes};
use program::rows::num;
use sets::{holds, put};
use system_letters::{letter_count, letter_width, row_head};
use value_letters::value_arity;

// Digit i, from the left, of a letter's number.
fn digit(code: u64, i: usize) -> usize
    requires { i ≤ max_arity }
    ensures { result ≡ digit_of code i }
{
    ((code >> (7 * (MAX_ARITY - i))) % 128) as usize
}

// Puts letter y into the set of each of its digits.
fn put_digits(heads: usize, w: usize, code: u64, y: usize, letters: &mut [u64])
    requires { DigitRows heads w code y letters.old }
    ensures { PutAll w (in_digits heads code y) letters.old letters.new }
{
    for i in 0..MAX_ARITY + 1 {
        let set = i * heads + digit(code, i);
        put(letters, w, set, y);
    }
}

// Puts every letter into the sets of its digits.
fn fill_digits(ws: &[u16], s: Sizes, letter_at: &[u16], codes: &[u64], letters: &mut [u64])
    requires letters_listed { LettersListed ws.now s letter_at.now codes.now }
    requires letter_room { LetterRoom (program ws.now s) (tables ws.now s) letters.old }
    ensures { PutAll (letter_width_of (program ws.now s) (tables ws.now s))
        (all_digits (program ws.now s) (tables ws.now s) codes.now)
        letters.old letters.new }
{
    let n = letter_count(ws, s, letter_at);
    let w = letter_width(ws, s, letter_at);
    let heads = s.constructors + OTHER_HEADS;
    for y in 0..n {
        put_digits(heads, w, codes[y], y, letters);
    }
}

// Does the value v, whose head and number of arguments are given, allow the letter?
fn allows(
    ws: &[u16],
    s: Sizes,
    names: &[u64],
    v: usize,
    head: usize,
    count: usize,
    code: u64,
) -> bool
    requires heads_known { HeadsKnown ws.now s names.now }
    requires value_told { ValueTold (program ws.now s) v head count }
    ensures { result ≡ code_allowed (program ws.now s) names.now v code }
{
    if digit(code, 0) != head {
        return false;
    }
    for i in 0..count {
        let n = num(ws, s, v + 2 + i);
        let h = digit(code, i + 1);
        if !holds(names, 2, n, h) {
            return false;
        }
    }
    true
}

// Puts the letters that the value of mail entry j allows into its set.
fn put_allowed(
    ws: &[u16],
    s: Sizes,
    names: &[u64],
    letter_at: &[u16],
    codes: &[u64],
    j: usize,
    letters: &mut [u64],
)
    requires letters_known { LettersKnown ws.now s names.now letter_at.now codes.now }
    requires j_lt_mails { (j < s.mails) × LetterRoom (program ws.now s) (tables ws.now s) letters.old }
    ensures { PutAll (letter_width_of (program ws.now s) (tables ws.now s))
        (in_allowed (program ws.now s) (tables ws.now s) names.now
        codes.now j) letters.old letters.new }
{
    let w = letter_width(ws, s, letter_at);
    let set = (MAX_ARITY + 1) * (s.constructors + OTHER_HEADS) + j;
    let v = mail_value(ws, s, j);
    let head = row_head(ws, s, v);
    let count = value_arity(ws, s, v);
    let list = mail(s);
    let c = left(ws, list, j);
    let from = word(letter_at, c);
    let to = word(letter_at, c + 1);
    for y in from..to {
        if allows(ws, s, names, v, head, count, codes[y]) {
            put(letters, w, set, y);
        }
    }
}

// Puts the letters that each mail entry's value allows into its set.
fn fill_allowed(
    ws: &[u16],
    s: Sizes,
    names: &[u64],
    letter_at: &[u16],
    codes: &[u64],
    letters: &mut [u64],
)
    requires letters_known { LettersKnown ws.now s names.now letter_at.now codes.now }
    requires letter_room { LetterRoom (program ws.now s) (tables ws.now s) letters.old }
    ensures { PutAll (letter_width_of (program ws.now s) (tables ws.now s))
        (all_allowed (program ws.now s) (tables ws.now s) names.now
        codes.now) letters.old letters.new }
{
    for j in 0..s.mails {
        put_allowed(ws, s, names, letter_at, codes, j, letters);
    }
}

// The sets of letters, in a table of zeros.
pub fn fill_letters(
    ws: &[u16],
    s: Sizes,
    names: &[u64],
    letter_at: &[u16],
    codes: &[u64],
    letters: &mut [u64],
)
    requires letters_known { LettersKnown ws.now s names.now letter_at.now codes.now }
    requires letters_empty { LettersEmpty (program ws.now s) (tables ws.now s) letters.old }
    ensures { LetterSets (program ws.now s) (tables ws.now s) letters.new }
{
    fill_digits(ws, s, letter_at, codes, letters);
    fill_allowed(ws, s, names, letter_at, codes, letters);
}
