// The letters that mail allows, listed once, as numbers, class by class, ascending. Refusal 9 goes by their number.
#![tactic(auto)]

ghost use Rattle.std.specs.Prelude.{◌≡◌, ◌≤◌};
ghost use Rattle.model.specs.Limits.{present, max_counters};
ghost use Rattle.model.specs.Rows.{program};
ghost use Rattle.model.specs.Tables.{tables};
ghost use Rattle.model.specs.Counters.{letter_count_of, counter_check_of};
ghost use Rattle.model.specs.Verify.{outcome};
ghost use Rattle.lists.specs.Ready.{Ready};
ghost use Rattle.system_letters.specs.Letters.{ClassLetters};
ghost use Rattle.ascending.specs.Numbers.{Added};
ghost use Rattle.value_letters.specs.Letters.{HeadsKnown};
ghost use Rattle.letter_codes.specs.Codes.{Coded, capped, AllowedIn, EntriesRoom, CodesRoom};

use lists::{mail, reach, right};
use model::{MAX_COUNTERS, Sizes, Verdict};
use parts::tables_at;
use value_letters::add_value;

// The letters that the values of the mail entries first..to allow, ascending, from word n on; gives where they end.
fn add_entries(
    ws: &[u16],
    s: Sizes,
    names: &[u64],
    first: usize,
    to: usize,
    most: usize,
    n: usize,
    codes: &mut [u64],
) -> usize
    requires heads_known { HeadsKnown ws.now s names.now }
    requires entries_room { EntriesRoom s first to most n codes.old }
    ensures { Added
        (AllowedIn (program ws.now s) (tables ws.now s) first to)
        most n n codes.old result codes.new }
{
    let list = mail(s);
    let mut m = n;
    for j in first..to {
        let v = right(ws, list, j);
        m = add_value(ws, s, names, v, most, n, m, codes);
    }
    m
}

// The letters that mail allows, as numbers, class by class, each once and ascending; and where each class begins. Gives
// how many there are, or one more than the most where there are more; the tables then say nothing.
pub fn fill_codes(
    ws: &[u16],
    s: Sizes,
    names: &[u64],
    most: usize,
    letter_at: &mut [u16],
    codes: &mut [u64],
) -> usize
    requires heads_known { HeadsKnown ws.now s names.now }
    requires codes_room { CodesRoom s most letter_at.old codes.old }
    ensures value { result ≡ capped most (letter_count_of (program ws.now s) (tables ws.now s)) }
    ensures class_letters { result ≤ most →
        ClassLetters (program ws.now s) (tables ws.now s) letter_at.new }
    ensures coded { result ≤ most →
        Coded (program ws.now s) (tables ws.now s) codes.new }
{
    let list = mail(s);
    let mut e = 0;
    let mut n = 0;
    for c in 0..s.rows + 1 {
        letter_at[c] = n as u16;
        let to = reach(ws, list, c + 1, e);
        n = add_entries(ws, s, names, e, to, most, n, codes);
        e = to;
    }
    letter_at[s.rows + 1] = n as u16;
    n
}

// Refusal 9: more counters than the limit, by the number n of letters, capped at it.
pub fn counter_check(ws: &[u16], s: Sizes, n: usize) -> Result<(), Verdict>
    requires ready { Ready ws.now s }
    requires n_value { n ≡ capped max_counters (letter_count_of (program ws.now s) (tables ws.now s)) }
    ensures { result ≡ outcome (counter_check_of present s (program ws.now s) (tables ws.now s)) }
{
    if s.states + n <= MAX_COUNTERS {
        Ok(())
    } else {
        Err(Verdict::Counters(tables_at(s) + 2))
    }
}
