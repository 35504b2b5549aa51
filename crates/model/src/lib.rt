// The declared types and the limits that every crate above uses. There is no code here: specs/ say what the papers say.
#![tactic(auto)]

// The sizes at the head of the parts of a message, in the order in which they stand there. Those of the fifth part,
// request (v) of document 02, are 0 where a message has none.
#[derive(Clone, Copy)]
pub struct Sizes {
    pub rows: usize,
    pub names: usize,
    pub constructors: usize,
    pub functions: usize,
    pub bads: usize,
    // the rows of the bads part
    pub badrows: usize,
    pub flows: usize,
    pub mails: usize,
    pub states: usize,
    pub ceilings: usize,
    // the entries of the ceilings part
    pub entries: usize,
    // the lines of the weights part, and its entries
    pub lines: usize,
    pub weights: usize,
}

// The answer for a message: safe, or the refusal's word in document 01 with its position. specs/Verdict.antt gives
// number and place.
// Checks hand on `Result<(), Verdict>`. Safe stays a variant, since `number` and `place` of specs/Verdict give it
// 0 and 0.
#[derive(Clone, Copy)]
pub enum Verdict {
    Safe,
    Length(usize),
    Size(usize),
    Row(usize),
    Name(usize),
    Scope(usize),
    Bad(usize),
    Entry(usize),
    Open(usize),
    Counters(usize),
    Ceiling(usize),
    Start(usize),
    Met(usize),
    Leak(usize),
    Space(usize),
    // Request (x) of document 02, number 22: checked between Open and Counters.
    FunctionMailed(usize),
    // Request (v) of document 02, numbers 16 to 18: in place of Ceiling, Start, Met and Leak where there are weights.
    Weights(usize),
    Rise(usize),
    Light(usize),
}

// The limits of document 01, three of them raised by request (vi) of document 02, for the code. specs/Limits.antt has
// them for the contracts: a constant that differs is refused there.
pub const MAX_ROWS: usize = 1536;

pub const MAX_NAMES: usize = 512;

pub const MAX_CONSTRUCTORS: usize = 64;

pub const MAX_FUNCTIONS: usize = 64;

pub const MAX_BADS: usize = 16;

pub const MIN_BAD_ROWS: usize = 4;

pub const MAX_BAD_ROWS: usize = 256;

pub const MAX_FLOWS: usize = 4096;

pub const MAX_MAILS: usize = 512;

pub const MAX_STATES: usize = 1024;

pub const MAX_CEILINGS: usize = 256;

pub const MAX_CEILING_ENTRIES: usize = 8192;

pub const MAX_LINES: usize = 16;

pub const MAX_WEIGHT_ENTRIES: usize = 8192;

pub const MAX_WEIGHT: usize = 1000;

pub const MAX_COUNTERS: usize = 1024;

pub const MAX_ARITY: usize = 8;

pub const MAX_BRANCHES: usize = 16;

pub const MAX_DEPTH: usize = 4;

pub const OMEGA: usize = 65535;

// The words of the longest message: specs/Message.antt has them as max_words.
// It has weights, behind the two sizes of no ceilings: as many entries as ceilings may have, and two sizes more.
pub const MAX_WORDS: usize = MAX_PROGRAM + MAX_EVIDENCE + MAX_WEIGHT_WORDS;

const MAX_PROGRAM: usize = 4 + 2 * MAX_ROWS;

const MAX_EVIDENCE: usize = 2
    + 2 * MAX_BAD_ROWS
    + 3
    + 2 * (MAX_FLOWS + MAX_MAILS + MAX_STATES)
    + MAX_STATES;

const MAX_WEIGHT_WORDS: usize = 2 + 2 + 2 * MAX_WEIGHT_ENTRIES;

// The tags of document 01, for the code: of program rows from 1, of bads from 40, of the listing from 50.
// specs/Tags.antt has them for the definitions.
// They stay numbers and no enum: a row may bear any number, and document 01 asks for a match on the row's tag by
// ranges.
pub const TAG_GIVE: usize = 1;

pub const TAG_BUILD: usize = 2;

pub const TAG_FUNCTION: usize = 3;

pub const TAG_CALL: usize = 4;

pub const TAG_SEND: usize = 5;

pub const TAG_SPAWN: usize = 6;

pub const TAG_SELF: usize = 7;

pub const TAG_CASE: usize = 8;

pub const TAG_RECEIVE: usize = 9;

pub const TAG_CONSTRUCTOR: usize = 10;

pub const TAG_GLOBAL: usize = 11;

pub const TAG_MADE: usize = 20;

pub const TAG_OPERAND: usize = 21;

pub const TAG_COUNT: usize = 22;

pub const TAG_PARAMETER: usize = 23;

pub const TAG_BRANCHES: usize = 25;

pub const TAG_PATTERN_NAME: usize = 30;

pub const TAG_PATTERN_CONSTRUCTOR: usize = 31;

pub const TAG_PATTERN_ANY: usize = 32;

pub const TAG_PATTERN_HELD: usize = 33;

pub const TAG_CLASS: usize = 40;

pub const TAG_HEAD: usize = 41;

pub const TAG_LETTER: usize = 42;

pub const TAG_MINIMUM: usize = 43;

pub const TAG_BAD_END: usize = 44;

pub const TAG_ARGUMENT: usize = 45;

pub const TAG_FROM: u32 = 50;

pub const TAG_TO: u32 = 51;

pub const TAG_READS: u32 = 52;

pub const TAG_PUTS: u32 = 53;

pub const TAG_STARTS: u32 = 54;

// Heads of values: a constructor's own number; then C for a function and C + 1 for an address: so many more than C in
// all.
pub const ADDRESS_HEAD: usize = 1;

pub const OTHER_HEADS: usize = 2;
