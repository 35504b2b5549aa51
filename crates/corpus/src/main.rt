// Runs a stored corpus from standard input: prints number, place and two digests for each case, which the other
// implementation stored in `stdout`. `oracle corpus 2 400 OUT` made both: OUT.bin is `stdin`. Their form is told in
// oracle/README.md.
#![tactic(auto)]

mod cases;
mod digest;

ghost use Rattle.std.specs.Prelude.{◌+◌, ◌≤◌, length};

use cases::put_case;
use input::read_full;
use std::io;
use std::io::{Read, Write};

// Four bytes as a number, the lowest first.
fn number_at(bytes: &[u8], at: usize) -> usize
    requires { at + 4 ≤ length bytes.now }
{
    u32::from_le_bytes([bytes[at], bytes[at + 1], bytes[at + 2], bytes[at + 3]]) as usize
}

// Prints the line of a case.
fn tell_case<W: Write>(message: &[u8], words: usize, out: &mut W) -> io::Result<()>
    requires { words ≤ 16384 }
{
    let mut lent = [0u32; 16384];
    let mut line = [0u8; 128];
    let n = put_case(message, &mut lent[..words], &mut line);
    out.write_all(&line[..n])
}

// Reads the next case and prints its line: whether there was one.
fn run_case<R: Read, W: Write>(reader: &mut R, out: &mut W) -> io::Result<bool> {
    let mut sizes = [0u8; 8];
    let got = read_full(reader, &mut sizes)?;
    if got < 8 {
        return Ok(false);
    }
    let words = number_at(&sizes, 0);
    let size = number_at(&sizes, 4);
    if words > 16384 {
        return Ok(false);
    }
    if size > 65536 {
        return Ok(false);
    }
    let mut message = [0u8; 65536];
    let came = read_full(reader, &mut message[..size])?;
    if came < size {
        return Ok(false);
    }
    tell_case(&message[..size], words, out)?;
    Ok(true)
}

// The corpus: eight bytes of a name, the number of cases, the cases.
fn main(rt: HostRuntime) -> io::Result<()> {
    let mut reader = rt.stdin();
    let mut out = rt.stdout();
    let mut head = [0u8; 12];
    let got = read_full(&mut reader, &mut head)?;
    if got < 12 {
        return Ok(());
    }
    for _ in 0..number_at(&head, 8) {
        if !run_case(&mut reader, &mut out)? {
            break;
        }
    }
    Ok(())
}
