// A system as text, put into a lent slice from a position on. Each function gives the position behind what it put.
// The slice and the position are no struct: put_system, which is public, keeps both, and `text` says why it has none.
#![tactic(auto)]

ghost use Rattle.std.specs.Prelude.{◌≡◌, ◌+◌, ◌*◌, ◌≤◌, ◌<◌, length, get_or};
ghost use Rattle.text.specs.Text.{put_at, pair};
ghost use Rattle.report.specs.System.{sizes_text, row_text, rows_text, system_text};

use text::{put_byte, put_end, put_line, put_pair};

// Word i of the words as a number.
fn word(ws: &[u32], i: usize) -> u64
    requires { i < length ws.now }
    ensures { result ≡ get_or ws.now i 0 }
{
    ws[i] as u64
}

// Word i of the words and the next.
fn put_two(out: &mut [u8], at: usize, ws: &[u32], i: usize) -> usize
    requires at_in_bounds { at + 41 ≤ length out.old }
    requires i_in_bounds { i + 2 ≤ length ws.now }
    ensures out_after { out.new ≡
        put_at at (pair (get_or ws.now i 0) (get_or ws.now (i + 1) 0)) out.old }
    ensures value { result ≡ at + length (pair (get_or ws.now i 0) (get_or ws.now (i + 1) 0)) }
{
    let a = word(ws, i);
    let b = word(ws, i + 1);
    put_pair(out, at, a, b)
}

// The four sizes of a system on a line.
#[tactic(auto, using(text::proofs::Digits::pair_most))]
fn put_sizes(out: &mut [u8], at: usize, ws: &[u32]) -> usize
    requires at_in_bounds { at + 84 ≤ length out.old }
    requires in_bounds { 4 ≤ length ws.now }
    ensures out_after { out.new ≡ put_at at (sizes_text ws.now) out.old }
    ensures value { result ≡ at + length (sizes_text ws.now) }
{
    let half = put_two(out, at, ws, 0);
    let space = put_byte(out, half, b' ');
    let end = put_two(out, space, ws, 2);
    put_end(out, end)
}

// Row r of a system of so many rows, its tag and its number, on a line.
fn put_row(out: &mut [u8], at: usize, ws: &[u32], rows: usize, r: usize) -> usize
    requires at_in_bounds { at + 42 ≤ length out.old }
    requires rows_value { (rows ≡ get_or ws.now 3 0) × (4 + 2 * rows ≤ length ws.now) }
    requires r_lt_rows { r < rows }
    ensures out_after { out.new ≡ put_at at (row_text ws.now r) out.old }
    ensures value { result ≡ at + length (row_text ws.now r) }
{
    let tag = word(ws, 4 + r);
    let number = word(ws, 4 + rows + r);
    put_line(out, at, tag, number)
}

// The rows of a system.
#[tactic(auto, using(crate::proofs::Rows::rows_most))]
fn put_rows(out: &mut [u8], at: usize, ws: &[u32], rows: usize) -> usize
    requires rows_in_bounds { at + 42 * rows ≤ length out.old }
    requires rows_value { (rows ≡ get_or ws.now 3 0) × (4 + 2 * rows ≤ length ws.now) }
    ensures out_after { out.new ≡ put_at at (rows_text ws.now rows) out.old }
    ensures value { result ≡ at + length (rows_text ws.now rows) }
{
    let mut here = at;
    for r in 0..rows {
        here = put_row(out, here, ws, rows, r);
    }
    here
}

// A system: its sizes and its rows.
#[tactic(auto, using(crate::proofs::Rows::sizes_most))]
pub fn put_system(out: &mut [u8], at: usize, ws: &[u32]) -> usize
    requires ws_in_bounds { at + 84 + 42 * get_or ws.now 3 0 ≤ length out.old }
    requires ws_in_bounds_2 { 4 + 2 * get_or ws.now 3 0 ≤ length ws.now }
    ensures out_after { out.new ≡ put_at at (system_text ws.now) out.old }
    ensures value { result ≡ at + length (system_text ws.now) }
{
    let rows = word(ws, 3) as usize;
    let first = put_sizes(out, at, ws);
    put_rows(out, first, ws, rows)
}
