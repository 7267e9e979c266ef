// The samplers: a function for each name of the C interface.
ghost use Rattle.outcome.specs.Outcome.{Is};
ghost use Rattle.sets.specs.Set.{set1};
ghost use Rattle.answers.specs.Result.{outcome};
ghost use Rattle.sampling.specs.Samplers.{sample_a, sample_s, challenge};
ghost use Rattle.sampling.specs.Calls.{sample_call};
ghost use Rattle.ncc_c.specs.Answer.{coded};

#[unsafe(no_mangle)]
pub extern "C" fn ncc_sample_a(stream: &[u8], out: &mut [i32]) -> u64
    ensures { Is (coded (outcome (sample_call set1 sample_a stream.now out.old) out.old)) result out.new }
{
    crate::answer::answer(sampling::set1::sample_a(stream, out))
}

#[unsafe(no_mangle)]
pub extern "C" fn ncc_sample_s(stream: &[u8], out: &mut [i32]) -> u64
    ensures { Is (coded (outcome (sample_call set1 sample_s stream.now out.old) out.old)) result out.new }
{
    crate::answer::answer(sampling::set1::sample_s(stream, out))
}

#[unsafe(no_mangle)]
pub extern "C" fn ncc_sample_challenge(stream: &[u8], out: &mut [i32]) -> u64
    ensures { Is (coded (outcome (sample_call set1 challenge stream.now out.old) out.old)) result out.new }
{
    crate::answer::answer(sampling::set1::sample_challenge(stream, out))
}
