// The bytes of a message as words.
#![tactic(auto)]

ghost use Rattle.std.specs.Prelude.{◌≡◌, ◌++◌, ◌+◌, ◌*◌, ◌≤◌, ◌<◌, length, get_or, drop};
ghost use Rattle.model.specs.Words.{words};

// A word of its two bytes, little-endian.
fn joined(low: u8, high: u8) -> u16
    ensures { result ≡ low + 256 * high }
{
    u16::from_le_bytes([low, high])
}

// Word i of the bytes, which have it.
pub fn word(bytes: &[u8], i: usize) -> u16
    requires { 2 * i + 1 < length bytes.now }
    ensures { result ≡ get_or (words bytes.now) i 0 }
{
    let low = 2 * i;
    let high = low + 1;
    joined(bytes[low], bytes[high])
}

// The words of the bytes, to the front of `into`, which has room for them; what stands behind them stays.
pub fn decode(bytes: &[u8], into: &mut [u16])
    requires { length bytes.now ≤ 2 * length into.old }
    ensures { into.new ≡
        words bytes.now ++ drop (length (words bytes.now)) into.old }
{
    let count = bytes.len() / 2;
    for i in 0..count {
        into[i] = word(bytes, i);
    }
}
