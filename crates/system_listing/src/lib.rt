// The listing is written: S, letters, rules, rows, then all tags, then all numbers.
#![tactic(auto)]

ghost use Rattle.std.specs.Prelude.{◌≡◌, ◌*◌, ◌+◌, ◌≤◌, ◌<◌, length, set};
ghost use Rattle.model.specs.Rows.{program, kind};
ghost use Rattle.model.specs.Tables.{tables};
ghost use Rattle.model.specs.Rules.{rules};
ghost use Rattle.model.specs.Listing.{line, system_words, written};
ghost use Rattle.rules.specs.Derived.{RuleRoom};
ghost use Rattle.rules.specs.Listed.{listed_rules};
ghost use Rattle.rule_tables.specs.Joined.{JoinedTables};
ghost use Rattle.system_totals.specs.Lines.{counted, lines};
ghost use Rattle.system_listing.specs.Putting.{put_line, rows_of, Room, Put};

use lists::word;
use model::{Sizes, TAG_FROM, TAG_TO};
use onward::guess_class;
use rule_tables::{LETTER_AT, rules_of};
use system_letters::letter_count;
use system_totals::{Totals, state_head, third_tag};

// Row x of n rows.
fn put(out: &mut [u32], n: usize, x: usize, tag: u32, number: usize)
    requires x_lt_n { (x < n) × (4 + 2 * n ≤ length out.old) }
    requires number_bound { number < 65536 }
    ensures { out.new ≡ put_line out.old n x (line tag number) }
{
    let at = 4 + x;
    out[at] = tag;
    let beside = 4 + n + x;
    out[beside] = number as u32;
}

// The rows of one rule, three where its third row has a tag; the next row.
fn put_rule(
    out: &mut [u32],
    n: usize,
    x: usize,
    from: usize,
    to: usize,
    third: Option<u32>,
    z: usize,
) -> usize
    requires room { Room out.old n x (rows_of from to third z) }
    requires from_bound { (from < 65536) × (to < 65536) × (z < 65536) }
    ensures { Put out.old out.new n x result (rows_of from to third z) }
{
    put(out, n, x, TAG_FROM, from);
    let second = x + 1;
    put(out, n, second, TAG_TO, to);
    let behind = x + 2;
    match third {
        None => behind,
        Some(tag) => {
            put(out, n, behind, tag, z);
            x + 3
        }
    }
}

// The rows of the m rules of state i in the two lists, whose head has this tag; the next row.
fn put_rules(
    out: &mut [u32],
    n: usize,
    x: usize,
    head: usize,
    i: usize,
    tos: &[u16],
    others: &[u16],
    m: usize,
) -> usize
    requires m_in_bounds { (m ≤ length tos.now) × (m ≤ length others.now) }
    requires i_bound { i < 65536 }
    requires room { Room out.old n x (lines (listed_rules (kind head) i tos.now others.now m)) }
    ensures { Put out.old out.new n x result
        (lines (listed_rules (kind head) i tos.now others.now m)) }
{
    let third = third_tag(head);
    let mut e = x;
    for k in 0..m {
        let to = word(tos, k);
        let other = word(others, k);
        e = put_rule(out, n, e, i, to, third, other);
    }
    e
}

// The rows of all states.
fn write_rules(
    out: &mut [u32],
    n: usize,
    ws: &[u16],
    s: Sizes,
    narrow: &[u16],
    fitting: &[u64],
    names: &[u64],
    letters: &[u64],
    at: &mut [u16],
    tos: &mut [u16],
    others: &mut [u16],
) -> usize
    requires joined_tables { JoinedTables ws.now s narrow.now fitting.now names.now letters.now }
    requires rule_room { RuleRoom ws.now s tos.old others.old }
    requires room { Room out.old n 0 (lines (rules (program ws.now s) (tables ws.now s))) }
    ensures { Put out.old out.new n 0 result
        (lines (rules (program ws.now s) (tables ws.now s))) }
{
    let mut e = 0;
    for i in 0..s.states {
        guess_class(ws, s, at, i);
        let m = rules_of(ws, s, narrow, fitting, names, letters, at, i, tos, others);
        let head = state_head(ws, s, i);
        e = put_rules(out, n, e, head, i, tos, others, m);
    }
    e
}

// The four sizes of the listing.
fn write_sizes(out: &mut [u32], states: usize, letters: usize, rules: usize, rows: usize)
    requires in_bounds { 4 ≤ length out.old }
    requires states_bound { (states < 4294967296) × (letters < 4294967296) }
    requires rules_bound { (rules < 4294967296) × (rows < 4294967296) }
    ensures { out.new ≡ set (set (set (set out.old 0 states) 1 letters) 2 rules) 3 rows }
{
    out[0] = states as u32;
    out[1] = letters as u32;
    out[2] = rules as u32;
    out[3] = rows as u32;
}

// The whole listing, whose rules and rows are counted; the words beyond it stay.
pub fn write_listing(
    out: &mut [u32],
    n: Totals,
    ws: &[u16],
    s: Sizes,
    narrow: &[u16],
    fitting: &[u64],
    names: &[u64],
    letters: &[u64],
    at: &mut [u16],
    tos: &mut [u16],
    others: &mut [u16],
)
    requires joined_tables { JoinedTables ws.now s narrow.now fitting.now names.now letters.now }
    requires rule_room { RuleRoom ws.now s tos.old others.old }
    requires n_value { n ≡ counted (rules (program ws.now s) (tables ws.now s)) }
    requires rules_bound { (n.rules < 4294967296) × (n.rows < 4294967296) }
    requires s_in_bounds { length (system_words (program ws.now s) (tables ws.now s)) ≤ length out.old }
    ensures { out.new ≡
        written (system_words (program ws.now s) (tables ws.now s)) out.old }
{
    let rows = n.rows;
    let count = letter_count(ws, s, &narrow[LETTER_AT..]);
    write_sizes(out, s.states, count, n.rules, rows);
    write_rules(
        out, rows, ws, s, narrow, fitting, names, letters, at, tos, others,
    );
}
