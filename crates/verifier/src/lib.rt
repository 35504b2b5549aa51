// The verifier: a message and lent words in; the verdict, the part handed on and the words written out.
#![tactic(auto)]

ghost use Rattle.std.specs.Prelude.{◌≡◌, length};
ghost use Rattle.model.specs.Verdict.{number, place};
ghost use Rattle.model.specs.Verify.{verdict, lent_after, part_handed};
ghost use Rattle.verifier.specs.Promises.{answer_to, number_in, place_in};
ghost use Rattle.verifier.specs.Promises.{RefusalChangesNothing, SafeExactlyWhenSound, SystemIsWritten};
ghost use Rattle.verifier.specs.Promises.{RunsAreFollowed, RefusedExactlyByTheTable, AsTheFormerGate};
ghost use Rattle.verifier.specs.Promises.{MailboxesHoldNoFunction, RunsMeetNoBad};

use answers::{Told, told_of};
use checks_sized::verdict::verdict_of;
use handed::part_of;

// The entry. Gives the part handed on; number and place of the verdict to `answer`; after safe the system to the lent
// words.
pub fn verify<'a>(message: &'a [u8], lent: &mut [u32], answer: &mut [usize; 2]) -> &'a [u8]
    ensures answer_after { answer.new ≡ answer_to message.now (length lent.old) }
    ensures result_value { result.now ≡ part_handed message.now (length lent.old) }
    ensures lent_after { lent.new ≡ lent_after message.now lent.old }
    ensures refusal_changes_nothing { RefusalChangesNothing (number_in answer.new)
        lent.old lent.new result.now }
    ensures safe_exactly_when_sound { SafeExactlyWhenSound (number_in answer.new)
        message.now (length lent.old) }
    ensures system_is_written { SystemIsWritten (number_in answer.new)
        message.now lent.old lent.new }
    ensures runs_are_followed { RunsAreFollowed (number_in answer.new)
        message.now lent.new }
    ensures refused_exactly_by_the_table { RefusedExactlyByTheTable (number_in answer.new) (place_in answer.new)
        message.now (length lent.old) }
    ensures as_the_former_gate { AsTheFormerGate (number_in answer.new) (place_in answer.new)
        message.now lent.old lent.new result.now }
    ensures mailboxes_hold_no_function { MailboxesHoldNoFunction (number_in answer.new) message.now }
    ensures runs_meet_no_bad { RunsMeetNoBad (number_in answer.new) message.now }
{
    let words = lent.len();
    let v = verdict_of(message, lent);
    let Told { number, place } = told_of(v);
    *answer = [number, place];
    part_of(message, words, v)
}

// The same as C calls it, which `verifier_c` exports: the number; the place, and the length of the part, which begins where
// the message does.
pub fn delungkaw_verify(
    message: &[u8],
    lent: &mut [u32],
    position: &mut usize,
    handed: &mut usize,
) -> u32
    ensures value { result ≡ number (verdict message.now (length lent.old)) }
    ensures position_after { position.new ≡ place (verdict message.now (length lent.old)) }
    ensures handed_after { handed.new ≡ length (part_handed message.now (length lent.old)) }
    ensures lent_after { lent.new ≡ lent_after message.now lent.old }
    ensures refusal_changes_nothing { RefusalChangesNothing result lent.old lent.new
        (part_handed message.now (length lent.old)) }
    ensures safe_exactly_when_sound { SafeExactlyWhenSound result message.now (length lent.old) }
    ensures system_is_written { SystemIsWritten result message.now lent.old lent.new }
    ensures runs_are_followed { RunsAreFollowed result message.now lent.new }
    ensures refused_exactly_by_the_table { RefusedExactlyByTheTable result position.new
        message.now (length lent.old) }
    ensures as_the_former_gate { AsTheFormerGate result position.new message.now lent.old lent.new
        (part_handed message.now (length lent.old)) }
    ensures mailboxes_hold_no_function { MailboxesHoldNoFunction result message.now }
    ensures runs_meet_no_bad { RunsMeetNoBad result message.now }
{
    let mut answer = [0usize; 2];
    let part = verify(message, lent, &mut answer);
    *handed = part.len();
    *position = answer[1];
    answer[0] as u32
}
