// The letters that a send puts, as a set.
#![tactic(auto)]

ghost use Rattle.std.specs.Prelude.{◌≡◌, ◌+◌, ◌*◌, ◌<◌};
ghost use Rattle.bits.specs.Bits.{Row};
ghost use Rattle.model.specs.Demands.{WithinLimits};
ghost use Rattle.model.specs.Limits.{present};
ghost use Rattle.model.specs.Rows.{program};
ghost use Rattle.model.specs.Tables.{tables};
ghost use Rattle.model.specs.Counters.{letters_allowed};
ghost use Rattle.model.specs.Rules.{from_each};
ghost use Rattle.system_letters.specs.Letters.{letter_width_of, digits, Found};
ghost use Rattle.rules.specs.Derived.{SentTables, SentTo};

use lists::{flow_value, mail, place, word};
use model::{MAX_ARITY, OTHER_HEADS, Sizes};
use sets::{clear, join_into};
use system_letters::letter_width;

// The set of the letters that the value of mail entry j allows, behind those of all digits.
pub fn entry_set(s: Sizes, j: usize) -> usize
    requires within_limits { WithinLimits present s }
    requires j_lt_mails { j < s.mails }
    ensures { result ≡ digits * (s.constructors + 2) + j }
{
    (MAX_ARITY + 1) * (s.constructors + OTHER_HEADS) + j
}

// The letters of the values of the name m, as letters of class d, in whose mail each of the values is.
pub fn sent_letters(
    ws: &[u16],
    s: Sizes,
    flow_at: &[u16],
    letter_at: &[u16],
    letters: &[u64],
    m: usize,
    d: usize,
    found: &mut [u64],
)
    requires sent_tables { SentTables ws.now s flow_at.now letter_at.now letters.now }
    requires sent_to { SentTo ws.now s m d }
    requires row { Row found.old (letter_width_of (program ws.now s) (tables ws.now s)) 0 }
    ensures { Found (program ws.now s) (tables ws.now s) d
        (from_each (tables ws.now s).flow m
        (letters_allowed (program ws.now s) (tables ws.now s)))
        found.new }
{
    let words = letter_width(ws, s, letter_at);
    clear(found, words, 0);
    let from = word(flow_at, m);
    let to = word(flow_at, m + 1);
    for i in from..to {
        let v = flow_value(ws, s, i);
        let j = place(ws, mail(s), d, v, 0);
        let set = entry_set(s, j);
        join_into(found, letters, words, 0, set);
    }
}
