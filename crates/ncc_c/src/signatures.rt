// Key making, signing and checking.
ghost use Rattle.std.specs.Prelude.{◌≡◌};
ghost use Rattle.outcome.specs.Outcome.{Is};
ghost use Rattle.answers.specs.Result.{outcome, told};
ghost use Rattle.shake.specs.Shake.{shake256};
ghost use Rattle.scheme.specs.Check.{check};
ghost use Rattle.scheme.specs.Keys.{make_keys};
ghost use Rattle.scheme.specs.Sign.{sign_outcome, sign};
ghost use Rattle.ncc_c.specs.Answer.{encoded, coded};
ghost use Rattle.sets.specs.Set.{set1};

#[unsafe(no_mangle)]
pub extern "C" fn ncc_make_keys(
    zeta: &[u8],
    prime: &[u8],
    public: &mut [u8],
    secret: &mut [u8],
) -> u64
    ensures { Is (coded (outcome (make_keys set1 shake256 zeta.now prime.now public.old secret.old) record { public = public.old; secret = secret.old })) result record { public = public.new; secret = secret.new } }
{
    crate::answer::answer(set1::make_keys(zeta, prime, public, secret))
}

#[unsafe(no_mangle)]
pub extern "C" fn ncc_sign(key: &[u8], message: &[u8], limit: u32, signature: &mut [u8]) -> u64
    ensures { Is (coded (sign_outcome limit (sign set1 shake256 key.now message.now limit signature.old) signature.old)) result signature.new }
{
    crate::answer::signed(set1::sign(key, message, limit, signature))
}

#[unsafe(no_mangle)]
pub extern "C" fn ncc_check(public: &[u8], signature: &[u8], message: &[u8]) -> u64
    ensures { result ≡ encoded (told (check set1 shake256 public.now signature.now message.now)) }
{
    crate::answer::answer(set1::check(public, signature, message))
}
