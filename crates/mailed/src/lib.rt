// Refusal 22 of document 02, (x): no value of the mail list is a function. It stands between 8 and 9.
#![tactic(auto)]

ghost use Rattle.std.specs.Prelude.{◌≡◌};
ghost use Rattle.model.specs.Rows.{program};
ghost use Rattle.model.specs.Limits.{max_counters};
ghost use Rattle.model.specs.Tables.{tables, mailed_check_of};
ghost use Rattle.model.specs.Counters.{letter_count_of};
ghost use Rattle.model.specs.Verify.{outcome};
ghost use Rattle.lists.specs.Ready.{Ready};
ghost use Rattle.letter_codes.specs.Codes.{capped};
ghost use Rattle.mailed.specs.Mailed.{does_mail_function, mailed_then_counters};

use letter_codes::counter_check;
use lists::{mail, mail_value};
use model::{Sizes, Verdict};
use program::rows::{is_function, tag};

// Whether the value of mail entry i is a function.
fn mails_function(ws: &[u16], s: Sizes, i: usize) -> bool
    requires { Ready ws.now s }
    ensures { result ≡ does_mail_function (program ws.now s) (tables ws.now s) i }
{
    let v = mail_value(ws, s, i);
    is_function(tag(ws, s, v))
}

// The verdict of refusal 22, at the first column of the first mail entry whose value is a function.
fn mailed_check(ws: &[u16], s: Sizes) -> Result<(), Verdict>
    requires { Ready ws.now s }
    ensures { result ≡ outcome (mailed_check_of s (program ws.now s) (tables ws.now s)) }
{
    for i in 0..s.mails {
        if mails_function(ws, s, i) {
            return Err(Verdict::FunctionMailed(mail(s).lefts + i));
        }
    }
    Ok(())
}

// Refusals 22 and 9 of a message with n letters, or more than the limit of counters; 22 is told first.
pub fn counters_verdict(ws: &[u16], s: Sizes, n: usize) -> Result<(), Verdict>
    requires ready { Ready ws.now s }
    requires n_value { n ≡ capped max_counters (letter_count_of (program ws.now s) (tables ws.now s)) }
    ensures { result ≡
        outcome (mailed_then_counters s (program ws.now s) (tables ws.now s)) }
{
    mailed_check(ws, s)?;
    counter_check(ws, s, n)
}
