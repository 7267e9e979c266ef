// Set 1: key making, signing and checking (SPEC 7 to 9) on bytes that nobody has checked.
#![tactic(auto)]

ghost use Rattle.std.specs.Prelude.{◌≡◌};
ghost use Rattle.outcome.specs.Outcome.{Is};
ghost use Rattle.answers.specs.Refusals.{report_of, signing_report};
ghost use Rattle.answers.specs.Result.{outcome, told};
ghost use Rattle.shake.specs.Shake.{shake256};
ghost use Rattle.scheme.specs.Check.{check};
ghost use Rattle.scheme.specs.Keys.{make_keys};
ghost use Rattle.scheme.specs.Sign.{sign_outcome, sign};
ghost use Rattle.sets.specs.Set.{set1};

use answers::{NotSigned, Refusal};
use sets::set1::Set1;

// The memory that a call works in.
const WORK: usize = workspace::PLACES * Set1::N;

// Makes a key pair from two seeds.
pub fn make_keys(
    zeta: &[u8],
    prime: &[u8],
    public: &mut [u8],
    secret: &mut [u8],
) -> Result<(), Refusal>
    ensures { Is (outcome (make_keys set1 shake256 zeta.now prime.now public.old secret.old) record { public = public.old; secret = secret.old }) (report_of result) record { public = public.new; secret = secret.new } }
{
    let mut work = [0u32; WORK];
    keys::make_keys(Set1::numbers(), zeta, prime, public, secret, &mut work)
}

// Signs a message with at most `limit` tries. The answer carries the count of tries.
pub fn sign(key: &[u8], message: &[u8], limit: u32, signature: &mut [u8]) -> Result<u32, NotSigned>
    ensures { Is (sign_outcome limit (sign set1 shake256 key.now message.now limit signature.old) signature.old) (signing_report result) signature.new }
{
    let mut work = [0u32; WORK];
    signing::sign(Set1::numbers(), key, message, limit, signature, &mut work)
}

// Checks a signature of a message under a public key.
pub fn check(public: &[u8], signature: &[u8], message: &[u8]) -> Result<(), Refusal>
    ensures { report_of result ≡ told (check set1 shake256 public.now signature.now message.now) }
{
    let mut work = [0u32; WORK];
    checking::check(Set1::numbers(), public, signature, message, &mut work)
}
