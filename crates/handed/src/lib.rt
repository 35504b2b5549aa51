// The part of a message that is handed on.
#![tactic(auto)]

ghost use Rattle.std.specs.Prelude.{◌≡◌};
ghost use Rattle.model.specs.Verify.{verdict, part_handed};

use answers::is_safe;
use model::Verdict;
use parts::bads_at;
use sizes::sizes_of;

// The part handed on after this verdict: after safe the program's own bytes of the message, else an empty part.
pub fn part_of(message: &[u8], words: usize, v: Verdict) -> &[u8]
    requires { v ≡ verdict message.now words }
    ensures { result.now ≡ part_handed message.now words }
{
    if !is_safe(v) {
        return &message[..0];
    }
    let s = sizes_of(message);
    let end = 2 * bads_at(s);
    &message[..end]
}
