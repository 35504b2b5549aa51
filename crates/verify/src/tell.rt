// What is told of a message, as text.
ghost use Rattle.std.specs.Prelude.{◌≡◌, ◌≤◌, length};
ghost use Rattle.input.specs.Counts.{IsPrefixLen};
ghost use Rattle.text.specs.Text.{put_at};
ghost use Rattle.verify.specs.Told.{most_text, told};

use report::put_system;
use text::put_line;
use verifier::verify;

// The words lent.
const LENT: usize = 16384;

// What is told of a message: the text, and how long it is. `write!` would not do: the clause `out_after` tells the
// bytes in `out`, and std's clauses for a slice as a writer tell only how much room is left.
pub fn tell(message: &[u8], out: &mut [u8]) -> usize
    requires { most_text ≤ length out.old }
    ensures out_after { out.new ≡ put_at 0 (told message.now) out.old }
    ensures value { result ≡ length (told message.now) }
    ensures prefix_len { IsPrefixLen result out.new }
{
    let mut lent = [0u32; LENT];
    let mut answer: [usize; 2] = [0, 0];
    verify(message, &mut lent, &mut answer);
    let number = answer[0];
    let place = answer[1];
    let at = put_line(out, 0, number as u64, place as u64);
    let is_refused = number != 0;
    if is_refused {
        return at;
    }
    put_system(out, at, &lent)
}
