// What a head asks whatever the state, settled once for each head.
#![tactic(auto)]

ghost use Rattle.std.specs.Prelude.{◌≡◌, ◌<◌};
ghost use Rattle.model.specs.Rows.{program};
ghost use Rattle.model.specs.Tables.{tables};
ghost use Rattle.settled.specs.Settled.{ClosureReady, Settled};
ghost use Rattle.codes.specs.Codes.{Codes};

use model::Sizes;
use settled::settle;

// What the head at row r asks: as it is kept, else settled and kept.
pub fn code_at(
    ws: &[u16],
    s: Sizes,
    afters: &[u16],
    starts: &[u16],
    flow: &[u64],
    mail: &[u64],
    may: &[u64],
    held: &[u64],
    codes: &mut [u32],
    r: usize,
) -> usize
    requires closure_ready { ClosureReady ws.now s afters.now starts.now flow.now mail.now may.now held.now }
    requires codes { Codes (program ws.now s) (tables ws.now s) codes.old × (r < s.rows) }
    ensures settled { Settled (program ws.now s) (tables ws.now s) r result }
    ensures codes_2 { Codes (program ws.now s) (tables ws.now s) codes.new }
{
    let known = codes[r] as usize;
    if known > 0 {
        return known - 1;
    }
    let k = settle(ws, s, afters, starts, flow, mail, may, held, r);
    let word = k + 1;
    codes[r] = word as u32;
    k
}
