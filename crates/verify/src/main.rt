// Reads a message from standard input, lends 16,384 words, and prints the verdict's number and place; if it is safe,
// the system too.
#![tactic(auto)]

mod tell;

ghost use Rattle.std.specs.Prelude.{IfSome, OnOk, take};
ghost use Rattle.std.specs.Io.KnownBytes.{Appends};
ghost use Rattle.verify.specs.Told.{most_read, told};

use input::read_full;
use model::MAX_WORDS;
use std::io;
use std::io::{Read, Write};
use tell::tell;

// The bytes read: those of the longest message, and one more, so that a longer one is seen to be.
const MOST_READ: usize = 2 * MAX_WORDS + 1;

// Room for the longest text.
const MOST_TEXT: usize = 350000;

// Reads a message and writes what is told of it. The longest message is read whole. What is longer is settled by its
// beginning: the sizes that the limits allow end before the buffer does, so the answer is the same as for the whole.
// The text is written at once: `write!` to the writer would write each number by itself, or need a buffer on the heap.
fn run<R: Read, W: Write>(reader: &mut R, writer: &mut W) -> io::Result<()>
    ensures { OnOk result (IfSome (R.remaining reader.old)
        (λ xs. Appends (W.contents writer.old) (W.contents writer.new) (told (take most_read xs)))) }
{
    let mut message = [0u8; MOST_READ];
    let n = read_full(reader, &mut message)?;
    let mut text = [0u8; MOST_TEXT];
    let k = tell(&message[..n], &mut text);
    writer.write_all(&text[..k])
}

fn main(rt: HostRuntime) -> io::Result<()> {
    run(&mut rt.stdin(), &mut rt.stdout())
}
