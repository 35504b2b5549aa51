// The change that a rule makes to the weighed sum of a line, a signed number; the first line that rules raise.
#![tactic(auto)]

ghost use Rattle.std.specs.Prelude.{◌≡◌, ◌*◌, ◌≤◌, ◌<◌, length};
ghost use Rattle.std.proofs.Math.IntN.{sub_ℕ};
ghost use Rattle.model.specs.Limits.{omega_limit};
ghost use Rattle.model.specs.Index.{first};
ghost use Rattle.model.specs.Weights.{weight_put_of, weight_taken_of, change, above_zero, raised};
ghost use Rattle.steps.specs.Steps.{rule_of_step};
ghost use Rattle.weights_change.specs.Changes.{weight_of, weight_with_of, step_rules};

use lists::word;
use steps::Step;
use weights::weight;

// The weight of counter x in line k, and 0 past the n counters.
fn weight_at(weights: &[u16], lines: usize, n: usize, k: usize, x: usize) -> usize
    requires { (k < lines) × (n * lines ≤ length weights.now) }
    ensures value { result ≡ weight_of weights.now lines n k x }
    ensures upper_bound { result ≤ omega_limit }
{
    if x < n {
        weight(weights, lines, k, x)
    } else {
        0
    }
}

// The weight of counter x in line k, and with it that of counter y where a rule of this kind names both.
fn weight_with(
    weights: &[u16],
    lines: usize,
    n: usize,
    k: usize,
    x: usize,
    is_both: bool,
    y: usize,
) -> usize
    requires { (k < lines) × (n * lines ≤ length weights.now) }
    ensures value { result ≡ weight_with_of (weight_of weights.now lines n k) x is_both y }
    ensures upper_bound { result ≤ 2 * omega_limit }
{
    let first = weight_at(weights, lines, n, k, x);
    if is_both {
        first + weight_at(weights, lines, n, k, y)
    } else {
        first
    }
}

// The weights that a rule puts: that of its to counter, and that of the letter put or of the new state.
fn weight_put(weights: &[u16], lines: usize, n: usize, k: usize, step: Step) -> usize
    requires k_lt_lines { (k < lines) × (n * lines ≤ length weights.now) }
    requires kind_bound { step.kind ≤ 3 }
    ensures value { result ≡ weight_put_of (weight_of weights.now lines n k) (rule_of_step step) }
    ensures upper_bound { result ≤ 2 * omega_limit }
{
    weight_with(weights, lines, n, k, step.to, 2 <= step.kind, step.other)
}

// The weights that a rule takes: that of its from counter, and that of the letter read.
fn weight_taken(weights: &[u16], lines: usize, n: usize, k: usize, step: Step) -> usize
    requires k_lt_lines { (k < lines) × (n * lines ≤ length weights.now) }
    requires kind_bound { step.kind ≤ 3 }
    ensures value { result ≡ weight_taken_of (weight_of weights.now lines n k) (rule_of_step step) }
    ensures upper_bound { result ≤ 2 * omega_limit }
{
    weight_with(weights, lines, n, k, step.from, step.kind == 1, step.other)
}

// What is put minus what is taken, signed: neither is more than two words, so that it fits.
fn difference(put: usize, taken: usize) -> i32
    requires { (put ≤ 2 * omega_limit) × (taken ≤ 2 * omega_limit) }
    ensures { result ≡ sub_ℕ put taken }
{
    put as i32 - taken as i32
}

// The change that a rule makes to the weighed sum of line k: weights put minus weights taken.
pub fn change(weights: &[u16], lines: usize, n: usize, k: usize, step: Step) -> i32
    requires k_lt_lines { (k < lines) × (n * lines ≤ length weights.now) }
    requires kind_bound { step.kind ≤ 3 }
    ensures { result ≡ change (weight_of weights.now lines n k) (rule_of_step step) }
{
    let put = weight_put(weights, lines, n, k, step);
    let taken = weight_taken(weights, lines, n, k, step);
    difference(put, taken)
}

// The rule raises the sum of line k.
fn raises(weights: &[u16], lines: usize, n: usize, k: usize, step: Step) -> bool
    requires k_lt_lines { (k < lines) × (n * lines ≤ length weights.now) }
    requires kind_bound { step.kind ≤ 3 }
    ensures { result ≡ above_zero (change (weight_of weights.now lines n k) (rule_of_step step)) }
{
    change(weights, lines, n, k, step) > 0
}

// The first line below `upto` that the rule raises, and `upto` where it raises none.
fn first_raised(weights: &[u16], lines: usize, n: usize, upto: usize, step: Step) -> usize
    requires upto_le_lines { (upto ≤ lines) × (n * lines ≤ length weights.now) }
    requires kind_bound { step.kind ≤ 3 }
    ensures value { result ≡ first 0 upto
        (λ k. above_zero (change (weight_of weights.now lines n k) (rule_of_step step))) }
    ensures upper_bound { result ≤ upto }
{
    for k in 0..upto {
        if raises(weights, lines, n, k, step) {
            return k;
        }
    }
    upto
}

// The first line below `upto` that some of the m rules of state i raises, and `upto` where none does: only lines below
// the first so far are tested.
pub fn first_raised_by(
    weights: &[u16],
    lines: usize,
    n: usize,
    upto: usize,
    kind: usize,
    tos: &[u16],
    others: &[u16],
    m: usize,
    i: usize,
) -> usize
    requires upto_le_lines { (upto ≤ lines) × (n * lines ≤ length weights.now) }
    requires kind_bound { kind ≤ 3 }
    requires m_in_bounds { (m ≤ length tos.now) × (m ≤ length others.now) }
    ensures value { result ≡ first 0 upto
        (λ k. raised (weight_of weights.now lines n k)
        (step_rules kind i tos.now others.now m)) }
    ensures upper_bound { result ≤ upto }
{
    let mut least = upto;
    for j in 0..m {
        let step = Step {
            from: i,
            to: word(tos, j),
            kind,
            other: word(others, j),
        };
        least = first_raised(weights, lines, n, least, step);
    }
    least
}
