// Cleared arrays. Each is made by a function whose contract says how long it is and that all is 0: so no caller's
// proof counts it out. Some have a size of their own; those that hold any message go by the limits.
#![tactic(auto)]

ghost use Rattle.model.specs.Message.{max_words};
ghost use Rattle.rooms.specs.Cleared.{Cleared};
ghost use Rattle.rooms.specs.Rooms.{row_room, rule_words, name_sets_of, row_sets_of, fitting_sets_of};
ghost use Rattle.rooms.specs.Rooms.{letter_codes_of, letter_sets_of, mask_pairs_of, mask_triples_of, limit_room};

use model::{
    MAX_ARITY, MAX_CEILINGS, MAX_CONSTRUCTORS, MAX_COUNTERS, MAX_MAILS, MAX_NAMES, MAX_ROWS,
    MAX_WORDS, OTHER_HEADS,
};

// specs/Rooms.antt says what each of these is for.
pub const ROW_ROOM: usize = MAX_ROWS + 2;

const RULE_WORDS: usize = 4 * ROW_ROOM;

const SET_WORDS: usize = MAX_ROWS / 64 + 1;

pub const NAME_SETS: usize = (MAX_NAMES + 1) * SET_WORDS;

pub const ROW_SETS: usize = MAX_ROWS * SET_WORDS;

pub const FITTING_SETS: usize = MAX_ROWS * (MAX_NAMES / 64 + 1);

const LETTER_CODES: usize = MAX_COUNTERS + 1;

const LETTER_WORDS: usize = MAX_COUNTERS / 64 + 1;

pub const LETTER_SETS: usize = ((MAX_ARITY + 1) * (MAX_CONSTRUCTORS + OTHER_HEADS) + MAX_MAILS)
    * LETTER_WORDS;

pub const MASK_PAIRS: usize = MAX_COUNTERS * 8;

pub const MASK_TRIPLES: usize = MAX_COUNTERS * 12;

pub const LIMIT_ROOM: usize = MAX_COUNTERS * MAX_CEILINGS;

// So many words of 16 bits.
pub fn words16<const N: usize>() -> [u16; N]
    ensures { Cleared N result }
{
    [0u16; N]
}

// So many words of 32 bits.
pub fn words32<const N: usize>() -> [u32; N]
    ensures { Cleared N result }
{
    [0u32; N]
}

// So many words of 64 bits.
pub fn words64<const N: usize>() -> [u64; N]
    ensures { Cleared N result }
{
    [0u64; N]
}

// A word for each row, and two behind them.
pub fn row_words16() -> [u16; ROW_ROOM]
    ensures { Cleared row_room result }
{
    [0; ROW_ROOM]
}

// The same of 32 bits.
pub fn row_words32() -> [u32; ROW_ROOM]
    ensures { Cleared row_room result }
{
    [0; ROW_ROOM]
}

// The tables of words that rules are read from.
pub fn rule_words16() -> [u16; RULE_WORDS]
    ensures { Cleared rule_words result }
{
    [0; RULE_WORDS]
}

// A set of values for each name, and one for the start.
pub fn name_sets() -> [u64; NAME_SETS]
    ensures { Cleared name_sets_of result }
{
    [0; NAME_SETS]
}

// A set of values for each row.
pub fn row_sets() -> [u64; ROW_SETS]
    ensures { Cleared row_sets_of result }
{
    [0; ROW_SETS]
}

// A set of names for each row.
pub fn fitting_sets() -> [u64; FITTING_SETS]
    ensures { Cleared fitting_sets_of result }
{
    [0; FITTING_SETS]
}

// A number for each letter, and one more.
pub fn letter_codes() -> [u64; LETTER_CODES]
    ensures { Cleared letter_codes_of result }
{
    [0; LETTER_CODES]
}

// A set of letters for each digit and what it is, for each mail entry and for each state, and a word for each state.
pub fn letter_sets() -> [u64; LETTER_SETS]
    ensures { Cleared letter_sets_of result }
{
    [0; LETTER_SETS]
}

// Two sets of ceilings for each counter.
pub fn mask_pairs() -> [u64; MASK_PAIRS]
    ensures { Cleared mask_pairs_of result }
{
    [0; MASK_PAIRS]
}

// Three sets of ceilings for each counter, which every state is.
pub fn mask_triples() -> [u64; MASK_TRIPLES]
    ensures { Cleared mask_triples_of result }
{
    [0; MASK_TRIPLES]
}

// A limit for each counter under each ceiling.
pub fn limit_words() -> [u16; LIMIT_ROOM]
    ensures { Cleared limit_room result }
{
    [0; LIMIT_ROOM]
}

// The words of any message.
pub fn message_words() -> [u16; MAX_WORDS]
    ensures { Cleared max_words result }
{
    [0; MAX_WORDS]
}
