// Numbers as text, put into a lent slice from a position on. Each function gives the position behind what it put.
// The slice and the position are no struct: put_digits, which is public, keeps both, and each method of a struct would
// have to promise besides that its slice is still the one that was lent, and is as long.
// Nothing is printed by `Display`: the clauses `out_after` tell the bytes, and of what `write!` puts into a slice
// std's clauses tell only the room that is left.
#![tactic(auto)]

ghost use Rattle.std.specs.Prelude.{◌≡◌, ◌+◌, ◌≤◌, ◌<◌, [], ◌∷◌, length};
ghost use Rattle.text.specs.Text.{put_at, width, digit, digits, decimal, pair, line_end, line};

// One byte.
pub fn put_byte(out: &mut [u8], at: usize, byte: u8) -> usize
    requires { at < length out.old }
    ensures out_after { out.new ≡ put_at at (byte ∷ []) out.old }
    ensures value { result ≡ at + 1 }
{
    out[at] = byte;
    at + 1
}

// A digit below 16 as a byte.
fn digit_of(n: u64) -> u8
    requires { n < 16 }
    ensures { result ≡ digit n }
{
    if n < 10 {
        b'0' + n as u8
    } else {
        b'a' - 10 + n as u8
    }
}

// The last k digits of a number, by its base. The library prints the fewest digits, and by some bases alone.
pub fn put_digits(out: &mut [u8], at: usize, base: u64, k: usize, n: u64) -> usize
    requires lt_base { (1 < base) × (base ≤ 16) }
    requires k_in_bounds { at + k ≤ length out.old }
    ensures out_after { out.new ≡ put_at at (digits base k n) out.old }
    ensures value { result ≡ at + k }
{
    let mut rest = n;
    for i in (0..k).rev() {
        out[at + i] = digit_of(rest % base);
        rest /= base;
    }
    at + k
}

// How many decimal digits a number has.
fn width_of(n: u64) -> usize
    ensures { result ≡ width n }
{
    n.max(1).ilog10() as usize + 1
}

// A number in decimal digits.
#[tactic(auto, using(crate::proofs::Digits::width_most))]
fn put_decimal(out: &mut [u8], at: usize, n: u64) -> usize
    requires { at + 20 ≤ length out.old }
    ensures out_after { out.new ≡ put_at at (decimal n) out.old }
    ensures value { result ≡ at + length (decimal n) }
{
    put_digits(out, at, 10, width_of(n), n)
}

// Two numbers with a space between.
#[tactic(auto, using(crate::proofs::Digits::decimal_most))]
pub fn put_pair(out: &mut [u8], at: usize, a: u64, b: u64) -> usize
    requires { at + 41 ≤ length out.old }
    ensures out_after { out.new ≡ put_at at (pair a b) out.old }
    ensures value { result ≡ at + length (pair a b) }
{
    let first = put_decimal(out, at, a);
    let space = put_byte(out, first, b' ');
    put_decimal(out, space, b)
}

// The end of a line.
pub fn put_end(out: &mut [u8], at: usize) -> usize
    requires { at < length out.old }
    ensures out_after { out.new ≡ put_at at line_end out.old }
    ensures value { result ≡ at + 1 }
{
    put_byte(out, at, b'\n')
}

// Two numbers on a line.
#[tactic(auto, using(crate::proofs::Digits::pair_most))]
pub fn put_line(out: &mut [u8], at: usize, a: u64, b: u64) -> usize
    requires { at + 42 ≤ length out.old }
    ensures out_after { out.new ≡ put_at at (line a b) out.old }
    ensures value { result ≡ at + length (line a b) }
{
    let end = put_pair(out, at, a, b);
    put_end(out, end)
}
