// The verdict on a message, and the lent words.
ghost use Rattle.std.specs.Prelude.{◌≡◌, ◌*◌, ◌≤◌, length};
ghost use Rattle.model.specs.Limits.{present};
ghost use Rattle.model.specs.Verify.{check, outcome, verdict, lent_after};
ghost use Rattle.message.specs.Whole.{WholeMessage};

use crate::sized_verdict;
use message::parts_of;
use model::{MAX_WORDS, Sizes, Verdict};
use rooms::words16;
use words::decode;

// Whether anything is refused of a message whose parts are whole; its words are decoded into lent ones.
fn decoded_verdict(
    bytes: &[u8],
    s: Sizes,
    words: &mut [u16],
    lent: &mut [u32],
) -> Result<(), Verdict>
    requires whole_message { WholeMessage bytes.now s }
    requires bytes_len_bound { length bytes.now ≤ 2 * length words.old }
    ensures value { result ≡ outcome (check present bytes.now (length lent.old)) }
    ensures lent_after { lent.new ≡ lent_after bytes.now lent.old }
{
    decode(bytes, words);
    let count = bytes.len() / 2;
    sized_verdict(64, &words[..count], s, lent)
}

// The same over so many words of the message.
fn decoded_over<const WORDS: usize>(bytes: &[u8], s: Sizes, lent: &mut [u32]) -> Result<(), Verdict>
    requires whole_message { WholeMessage bytes.now s }
    requires words_bound { (length bytes.now ≤ 2 * WORDS) × (WORDS ≤ 1048576) }
    ensures value { result ≡ outcome (check present bytes.now (length lent.old)) }
    ensures lent_after { lent.new ≡ lent_after bytes.now lent.old }
{
    let mut words = words16::<WORDS>();
    decoded_verdict(bytes, s, &mut words, lent)
}

// The same over the fewest words that fit, which `most` bytes or more may be. It calls itself for the next size: each
// size has a frame of its own (DECISIONS 46).
fn whole_verdict(most: usize, bytes: &[u8], s: Sizes, lent: &mut [u32]) -> Result<(), Verdict>
    requires le_most { 1 ≤ most }
    requires whole_message { WholeMessage bytes.now s }
    ensures value { result ≡ outcome (check present bytes.now (length lent.old)) }
    ensures lent_after { lent.new ≡ lent_after bytes.now lent.old }
{
    if most >= 65536 {
        return decoded_over::<MAX_WORDS>(bytes, s, lent);
    }
    if bytes.len() <= most {
        if most <= 1024 {
            return decoded_over::<512>(bytes, s, lent);
        }
        if most <= 4096 {
            return decoded_over::<2048>(bytes, s, lent);
        }
    }
    whole_verdict(4 * most, bytes, s, lent)
}

// All refusals of any bytes: 1 and 2 first, then those of the words.
fn bytes_verdict(bytes: &[u8], lent: &mut [u32]) -> Result<(), Verdict>
    ensures value { result ≡ outcome (check present bytes.now (length lent.old)) }
    ensures lent_after { lent.new ≡ lent_after bytes.now lent.old }
{
    let s = parts_of(bytes)?;
    whole_verdict(1024, bytes, s, lent)
}

// The verdict on any bytes; after safe the lent words are those of the system, and else as they came.
pub fn verdict_of(bytes: &[u8], lent: &mut [u32]) -> Verdict
    ensures value { result ≡ verdict bytes.now (length lent.old) }
    ensures lent_after { lent.new ≡ lent_after bytes.now lent.old }
{
    match bytes_verdict(bytes, lent) {
        Ok(()) => Verdict::Safe,
        Err(v) => v,
    }
}
