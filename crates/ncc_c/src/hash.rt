// The hash.
ghost use Rattle.outcome.specs.Outcome.{Is};
ghost use Rattle.std.specs.Prelude.{length};
ghost use Rattle.shake.specs.Shake.{shake256};

// SHAKE256 of a message of any length; it cannot refuse.
#[unsafe(no_mangle)]
pub extern "C" fn ncc_shake256(message: &[u8], out: &mut [u8]) -> u64
    ensures { Is (0, shake256 message.now (length out.old)) result out.new }
{
    shake::shake256(message, b"", b"", out);
    0
}
