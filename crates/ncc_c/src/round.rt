// Rounding and hints.
ghost use Rattle.std.specs.Prelude.{◌≡◌};
ghost use Rattle.outcome.specs.Outcome.{Is};
ghost use Rattle.sets.specs.Set.{set1};
ghost use Rattle.answers.specs.Result.{outcome};
ghost use Rattle.rounding.specs.Rounding.{high_bits, low_bits, make_hint, power2_round};
ghost use Rattle.rounding.specs.Used.{used_hint};
ghost use Rattle.ncc_c.specs.Answer.{coded};

#[unsafe(no_mangle)]
pub extern "C" fn ncc_high_bits(r: i32) -> u32
    ensures { result ≡ high_bits set1 r }
{
    rounding::set1::high_bits(r)
}

#[unsafe(no_mangle)]
pub extern "C" fn ncc_low_bits(r: i32) -> i32
    ensures { result ≡ low_bits set1 r }
{
    rounding::set1::low_bits(r)
}

#[unsafe(no_mangle)]
pub extern "C" fn ncc_make_hint(z: i32, r: i32) -> u32
    ensures { result ≡ make_hint set1 z r }
{
    rounding::set1::make_hint(z, r)
}

// A refusal leaves `high` as it came.
#[unsafe(no_mangle)]
pub extern "C" fn ncc_use_hint(hint: u32, r: i32, high: &mut u32) -> u64
    ensures { Is (coded (outcome (used_hint set1 hint r) high.old)) result high.new }
{
    match rounding::set1::use_hint(hint, r) {
        Ok(bits) => {
            *high = bits;
            crate::answer::answer(Ok(()))
        }
        Err(why) => crate::answer::answer(Err(why)),
    }
}

#[unsafe(no_mangle)]
pub extern "C" fn ncc_power2_high(r: i32) -> u32
    ensures { result ≡ (power2_round set1 r).high }
{
    rounding::set1::power2round(r).high
}

#[unsafe(no_mangle)]
pub extern "C" fn ncc_power2_low(r: i32) -> i32
    ensures { result ≡ (power2_round set1 r).low }
{
    rounding::set1::power2round(r).low
}
