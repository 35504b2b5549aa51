// The rules that go by letters, behind n rules of the two lists: of one value that the target of a send may have, and
// of one branch of a receive.
#![tactic(auto)]

ghost use Rattle.std.specs.Prelude.{◌≡◌, Bool, true, ℕ, ◌+◌, ◌≤◌, get_or, option_copied};
ghost use Rattle.model.specs.Limits.{max_depth};
ghost use Rattle.model.specs.Rows.{program, send, receive};
ghost use Rattle.model.specs.Heads.{is_class_of};
ghost use Rattle.model.specs.Tables.{tables};
ghost use Rattle.matching.specs.Patterns.{Pattern};
ghost use Rattle.rules.specs.Added.{Added};
ghost use Rattle.rules.specs.Derived.{SentTables, SentTo};
ghost use Rattle.rules.specs.Within.{only_passing, AskedOf};
ghost use Rattle.branch_letters.specs.Kept.{ReadTables};
ghost use Rattle.lettered_rules.specs.Turns.{ClassRoom, sent_turn, read_turn};

use branch_letters::branch_letters;
use class_rules::{asks_class, class_rules};
use model::Sizes;
use program::rows::is_class;
use sent_letters::sent_letters;
use system_letters::letter_width;

// The letters of the name m sent to d, where that is a class; where that is asked for, of the set `within` only. Most
// classes have none of these, and the letters of a message are searched for in each class.
pub fn sent_rules(
    ws: &[u16],
    s: Sizes,
    flow_at: &[u16],
    letter_at: &[u16],
    letters: &[u64],
    m: usize,
    d: usize,
    next: u16,
    within: Option<&[u64]>,
    n: usize,
    part: &mut [u64],
    found: &mut [u64],
    tos: &mut [u16],
    others: &mut [u16],
) -> usize
    requires sent_tables { SentTables ws.now s flow_at.now letter_at.now letters.now }
    requires class_room { ClassRoom ws.now s letter_at.now (option_copied within) part.old found.old
        tos.old others.old n d }
    requires sent_to { is_class_of (program ws.now s) d ≡ true → SentTo ws.now s m d }
    ensures by_index { (f : ℕ → Bool) →
        AskedOf (program ws.now s) (tables ws.now s) (option_copied within.entry) f →
        Added send tos.old others.old n tos.new others.new result
        (λ i. only_passing f (sent_turn (program ws.now s) (tables ws.now s) m next d i)) }
    ensures d_bound { result + get_or letter_at.now d 0 ≤ n + get_or letter_at.now (d + 1) 0 }
{
    if !is_class(ws, s, d) {
        return n;
    }
    let words = letter_width(ws, s, letter_at);
    if !asks_class(letter_at, within, words, d) {
        return n;
    }
    sent_letters(ws, s, flow_at, letter_at, letters, m, d, found);
    class_rules(
        s, letter_at, words, d, next, within, n, part, found, tos, others,
    )
}

// The letters of class c that the branch reads whose pattern stands at row q, and that leads to the state `next`;
// where that is asked for, of the set `within` only.
pub fn read_rules(
    ws: &[u16],
    s: Sizes,
    afters: &[u16],
    w: usize,
    fitting: &[u64],
    names: &[u64],
    letter_at: &[u16],
    letters: &[u64],
    c: usize,
    q: usize,
    next: u16,
    within: Option<&[u64]>,
    n: usize,
    part: &mut [u64],
    found: &mut [u64],
    tos: &mut [u16],
    others: &mut [u16],
) -> usize
    requires read_tables { ReadTables ws.now s afters.now w fitting.now names.now letter_at.now letters.now }
    requires class_room { ClassRoom ws.now s letter_at.now (option_copied within) part.old found.old
        tos.old others.old n c }
    requires pattern { Pattern (program ws.now s) max_depth q }
    ensures by_index { (f : ℕ → Bool) →
        AskedOf (program ws.now s) (tables ws.now s) (option_copied within.entry) f →
        Added receive tos.old others.old n tos.new others.new result
        (λ i. only_passing f (read_turn (program ws.now s) (tables ws.now s) c q next i)) }
    ensures c_bound { result + get_or letter_at.now c 0 ≤ n + get_or letter_at.now (c + 1) 0 }
{
    let x = next as usize;
    branch_letters(
        ws, s, afters, w, fitting, names, letter_at, letters, c, q, x, part, found,
    );
    let words = letter_width(ws, s, letter_at);
    class_rules(
        s, letter_at, words, c, next, within, n, part, found, tos, others,
    )
}
