// The verifier for C: a static library over the crate `verifier`. include/delungkaw.h declares what it exports.
#![tactic(auto)]

ghost use Rattle.std.specs.Prelude.{◌≡◌, length};
ghost use Rattle.model.specs.Verdict.{number, place};
ghost use Rattle.model.specs.Verify.{verdict, lent_after, part_handed};
ghost use Rattle.verifier.specs.Promises.{RefusalChangesNothing, SafeExactlyWhenSound, SystemIsWritten};
ghost use Rattle.verifier.specs.Promises.{RunsAreFollowed, RefusedExactlyByTheTable, AsTheFormerGate};
ghost use Rattle.verifier.specs.Promises.{MailboxesHoldNoFunction, RunsMeetNoBad};

// The number; the place, and the length of the part, which begins where the message does.
#[unsafe(no_mangle)]
pub extern "C" fn delungkaw_verify(
    message: &[u8],
    lent: &mut [u32],
    position: &mut usize,
    handed: &mut usize,
) -> u32
    ensures value { result ≡ number (verdict message.now (length lent.old)) }
    ensures position_after { position.new ≡ place (verdict message.now (length lent.old)) }
    ensures handed_after { handed.new ≡ length (part_handed message.now (length lent.old)) }
    ensures lent_after { lent.new ≡ lent_after message.now lent.old }
    ensures refusal_changes_nothing { RefusalChangesNothing result lent.old lent.new
        (part_handed message.now (length lent.old)) }
    ensures safe_exactly_when_sound { SafeExactlyWhenSound result message.now (length lent.old) }
    ensures system_is_written { SystemIsWritten result message.now lent.old lent.new }
    ensures runs_are_followed { RunsAreFollowed result message.now lent.new }
    ensures refused_exactly_by_the_table { RefusedExactlyByTheTable result position.new
        message.now (length lent.old) }
    ensures as_the_former_gate { AsTheFormerGate result position.new message.now lent.old lent.new
        (part_handed message.now (length lent.old)) }
    ensures mailboxes_hold_no_function { MailboxesHoldNoFunction result message.now }
    ensures runs_meet_no_bad { RunsMeetNoBad result message.now }
{
    verifier::delungkaw_verify(message, lent, position, handed)
}
