// Where the parts of a message stand, by its sizes.
#![tactic(auto)]

ghost use Rattle.std.specs.Prelude.{◌≡◌, ◌+◌, ◌^◌, ◌<◌};
ghost use Rattle.model.specs.Message.{table_cells_of, bads_offset, tables_offset, ceilings_offset, weights_offset, end_of};
ghost use Rattle.parts.specs.Parts.{LowSizes};

use model::Sizes;

// The words of the arrays of the tables: two columns of each list, and the third column of the states.
pub fn table_cells(flows: usize, mails: usize, states: usize) -> usize
    requires { flows + mails + states < 2 ^ 19 }
    ensures { result ≡ table_cells_of flows mails states }
{
    2 * (flows + mails + states) + states
}

// The word at which the bads part begins.
pub fn bads_at(s: Sizes) -> usize
    requires { LowSizes s }
    ensures { result ≡ bads_offset s }
{
    4 + 2 * s.rows
}

// The word at which the tables part begins.
pub fn tables_at(s: Sizes) -> usize
    requires { LowSizes s }
    ensures { result ≡ tables_offset s }
{
    bads_at(s) + 2 + 2 * s.badrows
}

// The word at which the ceilings part begins.
pub fn ceilings_at(s: Sizes) -> usize
    requires { LowSizes s }
    ensures { result ≡ ceilings_offset s }
{
    let cells = table_cells(s.flows, s.mails, s.states);
    tables_at(s) + 3 + cells
}

// The word past the ceilings, at which the weights part begins where there is one.
pub fn weights_at(s: Sizes) -> usize
    requires { LowSizes s }
    ensures { result ≡ weights_offset s }
{
    ceilings_at(s) + 2 + 2 * s.entries
}

// The word past the last part: the weights, where there are lines of them.
pub fn end_at(s: Sizes) -> usize
    requires { LowSizes s }
    ensures { result ≡ end_of s }
{
    let at = weights_at(s);
    if s.lines == 0 {
        at
    } else {
        at + 2 + 2 * s.weights
    }
}
