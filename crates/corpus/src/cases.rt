// What is printed for a case.
ghost use Rattle.std.specs.Prelude.{◌≡◌, ◌+◌, ◌<◌, ◌≤◌, length};
ghost use Rattle.model.specs.Verify.{lent_after};
ghost use Rattle.input.specs.Counts.{IsPrefixLen};
ghost use Rattle.text.specs.Text.{put_at};
ghost use Rattle.corpus.specs.Lines.{marks, hex, result_line, case_line};

use crate::digest::{EMPTY, add_bytes, add_words};
use text::{put_byte, put_digits, put_end, put_pair};
use verifier::verify;

// Lent word i, before the verifier runs.
const FIRST_MARK: u32 = 2779054080;

// Each word tells its place.
fn fill_marks(words: &mut [u32])
    requires { length words.old ≤ 16384 }
    ensures { words.new ≡ marks (length words.old) }
{
    for (i, word) in words.iter_mut().enumerate() {
        *word = FIRST_MARK + i as u32;
    }
}

// 64 bits as 16 digits.
fn put_hex(out: &mut [u8], at: usize, n: u64) -> usize
    requires { at + 16 ≤ length out.old }
    ensures out_after { out.new ≡ put_at at (hex n) out.old }
    ensures value { result ≡ at + length (hex n) }
{
    put_digits(out, at, 16, 16, n)
}

// Two numbers and two digests on a line. `write!` would not do: the clause `out_after` tells the bytes in `out`, and
// std's clauses for a slice as a writer tell only how much room is left.
#[tactic(auto, using(text::proofs::Digits::pair_most, crate::proofs::Lining::length_hex))]
fn put_result(out: &mut [u8], number: u64, place: u64, lent: u64, part: u64) -> usize
    requires { 76 ≤ length out.old }
    ensures out_after { out.new ≡ put_at 0 (result_line number place lent part) out.old }
    ensures value { result ≡ length (result_line number place lent part) }
{
    let verdict = put_pair(out, 0, number, place);
    let first = put_byte(out, verdict, b' ');
    let words = put_hex(out, first, lent);
    let second = put_byte(out, words, b' ');
    let end = put_hex(out, second, part);
    put_end(out, end)
}

// The line of a case: a message, and the words lent, which are filled anew.
pub fn put_case(message: &[u8], lent: &mut [u32], out: &mut [u8]) -> usize
    requires lent_len_bound { length lent.old ≤ 16384 }
    requires in_bounds { 76 ≤ length out.old }
    ensures out_after { out.new ≡
        put_at 0 (case_line message.now (length lent.old)) out.old }
    ensures lent_after { lent.new ≡ lent_after message.now (marks (length lent.old)) }
    ensures value { result ≡ length (case_line message.now (length lent.old)) }
    ensures prefix_len { IsPrefixLen result out.new }
{
    let mut answer: [usize; 2] = [0, 0];
    fill_marks(lent);
    let part = verify(message, lent, &mut answer);
    let handed = add_bytes(EMPTY, part);
    let words = add_words(EMPTY, lent);
    let number = answer[0];
    let place = answer[1];
    put_result(out, number as u64, place as u64, words, handed)
}
