// Refusals 22, 9 and all behind: the letters that mail allows are counted and listed, and those below stand on them;
// after none the listing is written. The room for names and sets of letters is by need.
ghost use Rattle.std.specs.Prelude.{◌≡◌, ◌+◌, ◌*◌, ◌≤◌, length};
ghost use Rattle.model.specs.Limits.{present, max_counters};
ghost use Rattle.model.specs.Demands.{WithinLimits};
ghost use Rattle.model.specs.Rows.{program};
ghost use Rattle.model.specs.Tables.{tables};
ghost use Rattle.model.specs.Verify.{outcome};
ghost use Rattle.lists.specs.Ready.{Ready};
ghost use Rattle.values.specs.Values.{Empty};
ghost use Rattle.system_letters.specs.Letters.{ClassLetters, letter_width_of};
ghost use Rattle.model.specs.Counters.{counter_count};
ghost use Rattle.rules.specs.Derived.{owner_at};
ghost use Rattle.branch_letters.specs.Kept.{OwnersRoom};
ghost use Rattle.letter_sets.specs.Sets.{LetterRoom};
ghost use Rattle.system_space.specs.Space.{words_after};
ghost use Rattle.stages.specs.Order.{from_22, from_11};
ghost use Rattle.stages.specs.Scratch.{ClosedTables, Lettered};

use crate::bounds::bounds_verdict;
use kept_letters::fill_reads;
use letter_codes::fill_codes;
use letter_sets::fill_letters;
use mailed::counters_verdict;
use matching_names::name_width;
use model::{MAX_ARITY, MAX_COUNTERS, OTHER_HEADS, Sizes, Verdict};
use rooms::{LETTER_SETS, letter_codes, words64};
use rule_tables::LETTER_AT;
use stages::form_verdict;
use system_letters::{fill_names, letter_width};

// The digits of a letter: its number, and the head of each argument.
const DIGITS: usize = MAX_ARITY + 1;

// How many sets of letters there are: one for each digit and head, for each mail entry, and for each state.
fn set_count(s: Sizes) -> usize
    requires { WithinLimits present s }
    ensures { result ≡ 9 * (s.constructors + 2) + s.mails + s.states }
{
    let heads = s.constructors + OTHER_HEADS;
    DIGITS * heads + s.mails + s.states
}

// How many words they take, and behind them a word for each state.
fn letter_words(ws: &[u16], s: Sizes, letter_at: &[u16]) -> usize
    requires ready { Ready ws.now s }
    requires class_letters { ClassLetters (program ws.now s) (tables ws.now s) letter_at.now }
    requires s_bound { counter_count (program ws.now s) (tables ws.now s) ≤ max_counters }
    ensures { result ≡ owner_at (program ws.now s) (tables ws.now s) s.states }
{
    let sets = set_count(s);
    let words = letter_width(ws, s, letter_at);
    sets * words + s.states
}

// Refusals behind 10 or 16 over lent sets of letters.
fn lettered_verdict(
    ws: &[u16],
    s: Sizes,
    narrow: &[u16],
    fitting: &[u64],
    names: &[u64],
    codes: &[u64],
    n: usize,
    letters: &mut [u64],
    lent: &mut [u32],
) -> Result<(), Verdict>
    requires lettered { Lettered ws.now s narrow.now fitting.now names.now codes.now n }
    requires empty { Empty (letter_width_of (program ws.now s) (tables ws.now s)) letters.old }
    requires letter_room { LetterRoom (program ws.now s) (tables ws.now s) letters.old }
    requires owners_room { OwnersRoom (program ws.now s) (tables ws.now s) letters.old }
    ensures value { result ≡ outcome (from_11 ws.now s (length lent.old)) }
    ensures lent_after { lent.new ≡ words_after result ws.now s lent.old }
{
    let letter_at = &narrow[LETTER_AT..];
    fill_letters(ws, s, names, letter_at, codes, letters);
    let w = name_width(s);
    fill_reads(ws, s, narrow, w, fitting, names, letter_at, letters);
    bounds_verdict(ws, s, narrow, fitting, names, letters, n, lent)
}

// Refusals behind 10 or 16 over so many words for sets of letters.
fn letters_over<const WORDS: usize>(
    ws: &[u16],
    s: Sizes,
    narrow: &[u16],
    fitting: &[u64],
    names: &[u64],
    codes: &[u64],
    n: usize,
    lent: &mut [u32],
) -> Result<(), Verdict>
    requires lettered { Lettered ws.now s narrow.now fitting.now names.now codes.now n }
    requires words_bound { (owner_at (program ws.now s) (tables ws.now s) s.states ≤ WORDS) × (WORDS ≤ 65536) }
    ensures value { result ≡ outcome (from_11 ws.now s (length lent.old)) }
    ensures lent_after { lent.new ≡ words_after result ws.now s lent.old }
{
    let mut letters = words64::<WORDS>();
    lettered_verdict(ws, s, narrow, fitting, names, codes, n, &mut letters, lent)
}

// Refusals behind 10 or 16 over the least room for sets of letters that fits, which that for `most` words or more may
// be. It calls itself for the next size: each size has a frame of its own (DECISIONS 46).
fn sets_verdict(
    most: usize,
    ws: &[u16],
    s: Sizes,
    narrow: &[u16],
    fitting: &[u64],
    names: &[u64],
    codes: &[u64],
    n: usize,
    lent: &mut [u32],
) -> Result<(), Verdict>
    requires le_most { 1 ≤ most }
    requires lettered { Lettered ws.now s narrow.now fitting.now names.now codes.now n }
    ensures value { result ≡ outcome (from_11 ws.now s (length lent.old)) }
    ensures lent_after { lent.new ≡ words_after result ws.now s lent.old }
{
    if most >= 4096 {
        return letters_over::<LETTER_SETS>(ws, s, narrow, fitting, names, codes, n, lent);
    }
    let words = letter_words(ws, s, &narrow[LETTER_AT..]);
    if words <= most {
        if most <= 256 {
            return letters_over::<256>(ws, s, narrow, fitting, names, codes, n, lent);
        }
        if most <= 1024 {
            return letters_over::<1024>(ws, s, narrow, fitting, names, codes, n, lent);
        }
    }
    sets_verdict(4 * most, ws, s, narrow, fitting, names, codes, n, lent)
}

// Refusals 22, 9 and all behind over a lent set of heads for each name.
fn named_verdict(
    ws: &[u16],
    s: Sizes,
    narrow: &mut [u16],
    fitting: &[u64],
    names: &mut [u64],
    lent: &mut [u32],
) -> Result<(), Verdict>
    requires closed_tables { ClosedTables ws.now s narrow.old fitting.now }
    requires names_in_bounds { s.names * 2 ≤ length names.old }
    ensures value { result ≡ outcome (from_22 ws.now s (length lent.old)) }
    ensures lent_after { lent.new ≡ words_after result ws.now s lent.old }
{
    fill_names(ws, s, names);
    let mut codes = letter_codes();
    let l = fill_codes(
        ws,
        s,
        names,
        MAX_COUNTERS,
        &mut narrow[LETTER_AT..],
        &mut codes,
    );
    // 22, then 9
    counters_verdict(ws, s, l)?;
    let n = s.states + l;
    form_verdict(ws, s, n)?;
    sets_verdict(256, ws, s, narrow, fitting, names, &codes, n, lent)
}

// Refusals 22, 9 and all behind over so many words for heads of names.
fn names_over<const WORDS: usize>(
    ws: &[u16],
    s: Sizes,
    narrow: &mut [u16],
    fitting: &[u64],
    lent: &mut [u32],
) -> Result<(), Verdict>
    requires closed_tables { ClosedTables ws.now s narrow.old fitting.now }
    requires words_bound { (s.names * 2 ≤ WORDS) × (WORDS ≤ 65536) }
    ensures value { result ≡ outcome (from_22 ws.now s (length lent.old)) }
    ensures lent_after { lent.new ≡ words_after result ws.now s lent.old }
{
    let mut names = words64::<WORDS>();
    named_verdict(ws, s, narrow, fitting, &mut names, lent)
}

// Refusals 22, 9 and all behind over the least room for heads of names that fits.
pub fn system_verdict(
    ws: &[u16],
    s: Sizes,
    narrow: &mut [u16],
    fitting: &[u64],
    lent: &mut [u32],
) -> Result<(), Verdict>
    requires { ClosedTables ws.now s narrow.old fitting.now }
    ensures value { result ≡ outcome (from_22 ws.now s (length lent.old)) }
    ensures lent_after { lent.new ≡ words_after result ws.now s lent.old }
{
    if s.names <= 64 {
        return names_over::<130>(ws, s, narrow, fitting, lent);
    }
    names_over::<1024>(ws, s, narrow, fitting, lent)
}
