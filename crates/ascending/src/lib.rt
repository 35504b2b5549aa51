// Words that ascend, and how a word is put among them.
#![tactic(auto)]

ghost use Rattle.std.specs.Prelude.{◌≡◌, ◌+◌, ◌≤◌, ◌<◌, length};
ghost use Rattle.model.specs.Limits.{max_counters};
ghost use Rattle.ascending.specs.Numbers.{Rising, Placed, Added};

// The first of the ascending words from..n that is not below x.
fn place(codes: &[u64], from: usize, n: usize, x: u64) -> usize
    requires from_le_n { (from ≤ n) × (n ≤ max_counters) × (n ≤ length codes.now) }
    requires rising { Rising from n codes.now }
    ensures { Placed from n codes.now x result }
{
    from + codes[from..n].partition_point(|&c| c < x)
}

// Puts x among the ascending words from..n, where it is not yet there; gives where they end.
pub fn insert(codes: &mut [u64], from: usize, n: usize, x: u64) -> usize
    requires from_le_n { (from ≤ n) × (n ≤ max_counters) × (n < length codes.old) }
    requires rising { Rising from n codes.old }
    ensures added { Added (λ y. y ≡ x) (n + 1) from n codes.old result codes.new }
    ensures upper_bound { result ≤ n + 1 }
{
    let at = place(codes, from, n, x);
    if at < n && codes[at] == x {
        return n;
    }
    codes.copy_within(at..n, at + 1);
    codes[at] = x;
    n + 1
}
