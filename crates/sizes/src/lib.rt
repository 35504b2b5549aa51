// The sizes of the parts of a message: as they are read, and the first one outside its limits.
#![tactic(auto)]

ghost use Rattle.std.specs.Prelude.{◌≡◌, List, ◌∷◌, ◌+◌, ◌^◌, ◌≤◌, ◌<◌, get_or};
ghost use Rattle.model.specs.Limits.{present};
ghost use Rattle.model.specs.Words.{words};
ghost use Rattle.model.specs.Message.{Limited, limited};
ghost use Rattle.model.specs.Message.{program_sizes, bads_sizes, tables_sizes, ceilings_sizes, weights_sizes};
ghost use Rattle.model.specs.Message.{fifth_size_of, sizes};
ghost use Rattle.parts.specs.Parts.{LowSizes};
ghost use Rattle.sizes.specs.Sizes.{first_outside};

use model::{
    MAX_BAD_ROWS, MAX_BADS, MAX_CEILING_ENTRIES, MAX_CEILINGS, MAX_CONSTRUCTORS, MAX_FLOWS,
    MAX_FUNCTIONS, MAX_LINES, MAX_MAILS, MAX_NAMES, MAX_ROWS, MAX_STATES, MAX_WEIGHT_ENTRIES,
    MIN_BAD_ROWS, Sizes,
};
use parts::table_cells;
use words::word;

// Word i of the bytes, and 0 where they end before it, as the model reads a size that is not there.
fn size_at(bytes: &[u8], i: usize) -> usize
    ensures value { result ≡ get_or (words bytes.now) i 0 }
    ensures upper_bound { result < 65536 }
{
    if i < bytes.len() / 2 {
        word(bytes, i) as usize
    } else {
        0
    }
}

// The same of a size of the fifth part, which is there only behind no ceilings; else 0.
fn fifth_size(bytes: &[u8], ceilings: usize, entries: usize, i: usize) -> usize
    requires { ceilings + entries < 2 ^ 17 }
    ensures value { result ≡ fifth_size_of ceilings entries (get_or (words bytes.now) i 0) }
    ensures upper_bound { result < 65536 }
{
    if ceilings + entries == 0 {
        size_at(bytes, i)
    } else {
        0
    }
}

// The sizes of the five parts, each where the sizes before it say that it stands.
pub fn sizes_of(bytes: &[u8]) -> Sizes
    ensures value { result ≡ sizes (words bytes.now) }
    ensures low_sizes { LowSizes result }
{
    let rows = size_at(bytes, 0);
    let bads = 4 + 2 * rows;
    let badrows = size_at(bytes, bads + 1);
    let tables = bads + 2 + 2 * badrows;
    let flows = size_at(bytes, tables);
    let mails = size_at(bytes, tables + 1);
    let states = size_at(bytes, tables + 2);
    let cells = table_cells(flows, mails, states);
    let last = tables + 3 + cells;
    let ceilings = size_at(bytes, last);
    let entries = size_at(bytes, last + 1);
    Sizes {
        rows,
        names: size_at(bytes, 1),
        constructors: size_at(bytes, 2),
        functions: size_at(bytes, 3),
        bads: size_at(bytes, bads),
        badrows,
        flows,
        mails,
        states,
        ceilings,
        entries,
        lines: fifth_size(bytes, ceilings, entries, last + 2),
        weights: fifth_size(bytes, ceilings, entries, last + 3),
    }
}

// The number of the first size outside its limits, both allowed, of a size and of those behind it, of which it is
// number `behind`. It is a count and no Option: so many sizes in front are within their limits, be it all of them, as
// first_outside of specs/ has it.
fn outside(size: usize, least: usize, most: usize, behind: usize) -> usize
    requires { behind < 65536 }
    ensures { ((ls : List Limited) →
        behind ≡ first_outside ls → result ≡ first_outside (limited size least most ∷ ls)) × (result ≤ behind + 1) }
{
    if size < least {
        return 0;
    }
    if size > most {
        return 0;
    }
    1 + behind
}

// The number of the first size of the program part that is outside its limits, and 4 where none is.
pub fn program_outside(s: Sizes) -> usize
    ensures { result ≡ first_outside (program_sizes present s) }
{
    let functions = outside(s.functions, 0, MAX_FUNCTIONS, 0);
    let constructors = outside(s.constructors, 0, MAX_CONSTRUCTORS, functions);
    let names = outside(s.names, 1, MAX_NAMES, constructors);
    outside(s.rows, 1, MAX_ROWS, names)
}

// The same for the bads part, of two sizes.
pub fn bads_outside(s: Sizes) -> usize
    ensures { result ≡ first_outside (bads_sizes s) }
{
    let badrows = outside(s.badrows, MIN_BAD_ROWS, MAX_BAD_ROWS, 0);
    outside(s.bads, 1, MAX_BADS, badrows)
}

// The same for the tables part, of three sizes.
pub fn tables_outside(s: Sizes) -> usize
    ensures { result ≡ first_outside (tables_sizes present s) }
{
    let states = outside(s.states, 0, MAX_STATES, 0);
    let mails = outside(s.mails, 0, MAX_MAILS, states);
    outside(s.flows, 0, MAX_FLOWS, mails)
}

// The same for the ceilings part, of two sizes.
pub fn ceilings_outside(s: Sizes) -> usize
    ensures { result ≡ first_outside (ceilings_sizes s) }
{
    let entries = outside(s.entries, 0, MAX_CEILING_ENTRIES, 0);
    outside(s.ceilings, 0, MAX_CEILINGS, entries)
}

// The same for the weights part, of two sizes.
pub fn weights_outside(s: Sizes) -> usize
    ensures { result ≡ first_outside (weights_sizes s) }
{
    let weights = outside(s.weights, 0, MAX_WEIGHT_ENTRIES, 0);
    outside(s.lines, 1, MAX_LINES, weights)
}
