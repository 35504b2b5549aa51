// The parts of a message, and refusals 1 and 2. Any bytes at all get an answer.
#![tactic(auto)]

ghost use Rattle.std.specs.Prelude.{◌≡◌, List, ◌+◌, ◌^◌, ◌<◌, length};
ghost use Rattle.model.specs.Limits.{present};
ghost use Rattle.model.specs.Words.{words};
ghost use Rattle.model.specs.Message.{Limited, part_check, program_part_of, bads_part_of, tables_part_of, ceilings_part_of};
ghost use Rattle.model.specs.Message.{goes_on, weights_part_of};
ghost use Rattle.parts.specs.Parts.{LowSizes};
ghost use Rattle.sizes.specs.Sizes.{first_outside};
ghost use Rattle.model.specs.Verify.{outcome};
ghost use Rattle.message.specs.Parts.{parts_in};

use model::{Sizes, Verdict};
use parts::{bads_at, ceilings_at, end_at, table_cells, tables_at, weights_at};
use sizes::{
    bads_outside, ceilings_outside, program_outside, sizes_of, tables_outside, weights_outside,
};

// Refusals 1 and 2 of a part at word `at`: its sizes whole, within their limits, its arrays of `cells` words whole. The
// first size outside its limits is number `wrong` of the part's `count` sizes.
fn part(bytes: &[u8], at: usize, count: usize, wrong: usize, cells: usize) -> Result<(), Verdict>
    requires { at + count + cells < 2 ^ 21 }
    ensures { (ls : List Limited) → length ls ≡ count → first_outside ls ≡ wrong →
        result ≡ outcome (part_check (words bytes.now) at ls cells) }
{
    let words = bytes.len() / 2;
    if words < at + count {
        return Err(Verdict::Length(at));
    }
    if wrong < count {
        return Err(Verdict::Size(at + wrong));
    }
    if words < at + count + cells {
        return Err(Verdict::Length(at));
    }
    Ok(())
}

// The program part: rows, names, constructors, functions; tags and numbers of the rows.
fn program_part(bytes: &[u8], s: Sizes) -> Result<(), Verdict>
    requires { LowSizes s }
    ensures { result ≡ outcome (program_part_of present (words bytes.now) s) }
{
    part(bytes, 0, 4, program_outside(s), 2 * s.rows)
}

// The bads part: bads and their rows; tags and numbers of the rows.
fn bads_part(bytes: &[u8], s: Sizes) -> Result<(), Verdict>
    requires { LowSizes s }
    ensures { result ≡ outcome (bads_part_of (words bytes.now) s) }
{
    part(bytes, bads_at(s), 2, bads_outside(s), 2 * s.badrows)
}

// The tables part: flow, mail and state entries; first and second columns, and the states' third.
fn tables_part(bytes: &[u8], s: Sizes) -> Result<(), Verdict>
    requires { LowSizes s }
    ensures { result ≡ outcome (tables_part_of present (words bytes.now) s) }
{
    let cells = table_cells(s.flows, s.mails, s.states);
    part(bytes, tables_at(s), 3, tables_outside(s), cells)
}

// The ceilings part: ceilings and their entries; counter numbers and limits.
fn ceilings_part(bytes: &[u8], s: Sizes) -> Result<(), Verdict>
    requires { LowSizes s }
    ensures { result ≡ outcome (ceilings_part_of (words bytes.now) s) }
{
    part(bytes, ceilings_at(s), 2, ceilings_outside(s), 2 * s.entries)
}

// A message goes on with weights: it has no ceilings, and bytes behind their two sizes.
fn goes_on(bytes: &[u8], s: Sizes) -> bool
    requires { LowSizes s }
    ensures { result ≡ goes_on bytes.now s }
{
    s.ceilings + s.entries == 0 && 2 * weights_at(s) < bytes.len()
}

// The weights part, where there is one: lines and their entries; counter numbers and weights.
fn weights_part(bytes: &[u8], s: Sizes) -> Result<(), Verdict>
    requires { LowSizes s }
    ensures { result ≡ outcome (weights_part_of bytes.now (words bytes.now) s) }
{
    if !goes_on(bytes, s) {
        return Ok(());
    }
    part(bytes, weights_at(s), 2, weights_outside(s), 2 * s.weights)
}

// Refusals 1 and 2 of any bytes, part by part; then that no bytes remain.
pub fn parts_of(bytes: &[u8]) -> Result<Sizes, Verdict>
    ensures { result ≡ parts_in bytes.now }
{
    let s = sizes_of(bytes);
    program_part(bytes, s)?;
    bads_part(bytes, s)?;
    tables_part(bytes, s)?;
    ceilings_part(bytes, s)?;
    weights_part(bytes, s)?;
    let end = end_at(s);
    if 2 * end < bytes.len() {
        return Err(Verdict::Length(end));
    }
    Ok(s)
}
