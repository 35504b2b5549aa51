// The values of names and of classes as sets of bits: one set of `width` words for each, which refusal 8 stands on.
#![tactic(auto)]

ghost use Rattle.std.specs.Prelude.{◌≡◌, ◌+◌, ◌<◌, length};
ghost use Rattle.model.specs.Rows.{program};
ghost use Rattle.model.specs.Tables.{tables};
ghost use Rattle.program.specs.Rows.{Whole};
ghost use Rattle.lists.specs.Lists.{Starts};
ghost use Rattle.lists.specs.Ready.{Ready};
ghost use Rattle.values.specs.Values.{width, mail_set_of, Empty, Room, FlowSets, MailSets};

use lists::{flow, left, mail, reach, right};
use model::Sizes;
use program::rows::num;
use sets::put;

// How many words a set of values has: a bit for each row, and one for the class of the start.
pub fn width(s: Sizes) -> usize
    ensures { result ≡ width s.rows }
{
    s.rows / 64 + 1
}

// The number of the set of the class c.
pub fn mail_set(ws: &[u16], s: Sizes, c: usize) -> usize
    requires { Whole ws.now s }
    ensures { result ≡ mail_set_of (program ws.now s) c }
{
    if c == s.rows { s.names } else { num(ws, s, c) }
}

// The sets of all names, in a table of zeros.
pub fn fill_flow(ws: &[u16], s: Sizes, sets: &mut [u64])
    requires ready { Ready ws.now s }
    requires empty { Empty (width s.rows) sets.old }
    requires room { Room (width s.rows) s.names sets.old }
    ensures { FlowSets (program ws.now s) (tables ws.now s) sets.new }
{
    let w = width(s);
    let l = flow(s);
    for i in 0..s.flows {
        let n = left(ws, l, i);
        let v = right(ws, l, i);
        put(sets, w, n, v);
    }
}

// The sets of all classes, in a table of zeros.
pub fn fill_mail(ws: &[u16], s: Sizes, sets: &mut [u64])
    requires ready { Ready ws.now s }
    requires empty { Empty (width s.rows) sets.old }
    requires room { Room (width s.rows) (s.names + 1) sets.old }
    ensures { MailSets (program ws.now s) (tables ws.now s) sets.new }
{
    let w = width(s);
    let l = mail(s);
    for i in 0..s.mails {
        let c = left(ws, l, i);
        let n = mail_set(ws, s, c);
        let v = right(ws, l, i);
        put(sets, w, n, v);
    }
}

// Where the entries of each name begin, and behind them where those of the last end.
pub fn fill_starts(ws: &[u16], s: Sizes, starts: &mut [u16])
    requires ready { Ready ws.now s }
    requires names_in_bounds { s.names < length starts.old }
    ensures { Starts (tables ws.now s).flow s.names starts.new }
{
    let l = flow(s);
    let mut i = 0;
    for n in 0..s.names + 1 {
        i = reach(ws, l, n, i);
        starts[n] = i as u16;
    }
}
