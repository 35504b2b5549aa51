// FNV-1a with 64 bits, of bytes and of words as little-endian bytes.
ghost use Rattle.std.specs.Prelude.{◌≡◌};
ghost use Rattle.corpus.specs.Digest.{with_byte, digest_from, with_word, words_from};

// What the digest of nothing is.
pub const EMPTY: u64 = 14695981039346656037;

// The prime 2^40 + 435.
const PRIME: u64 = 1099511628211;

// One byte more.
fn add_byte(digest: u64, byte: u8) -> u64
    ensures { result ≡ with_byte digest byte }
{
    (digest ^ byte as u64).wrapping_mul(PRIME)
}

// The digest with some bytes more.
pub fn add_bytes(digest: u64, bytes: &[u8]) -> u64
    ensures { result ≡ digest_from digest bytes.now }
{
    let mut so_far = digest;
    for &byte in bytes {
        so_far = add_byte(so_far, byte);
    }
    so_far
}

// One word more, its lowest byte first.
fn add_word(digest: u64, word: u32) -> u64
    ensures { result ≡ with_word digest word }
{
    add_bytes(digest, &word.to_le_bytes())
}

// The digest with some words more.
pub fn add_words(digest: u64, words: &[u32]) -> u64
    ensures { result ≡ words_from digest words.now }
{
    let mut so_far = digest;
    for &word in words {
        so_far = add_word(so_far, word);
    }
    so_far
}
