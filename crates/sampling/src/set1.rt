// The samplers of set 1 as calls (SPEC 5.6).
ghost use Rattle.std.specs.Prelude.{◌≡◌, ◌≢◌, length, MatchResult};
ghost use Rattle.outcome.specs.Outcome.{Is};
ghost use Rattle.sets.specs.Set.{set1};
ghost use Rattle.answers.specs.declared.Buffer.TheVariants.{Coefficients};
ghost use Rattle.answers.specs.declared.Refusal.TheVariants.{Length};
ghost use Rattle.answers.specs.Refusals.{report_of};
ghost use Rattle.answers.specs.Result.{outcome};
ghost use Rattle.sampling.specs.Samplers.{sample_a, sample_s, challenge};
ghost use Rattle.sampling.specs.Calls.{sample_call};

use answers::{Buffer, Refusal};
use sets::set1::Set1;

// The output takes the coefficients of set 1.
fn takes(out: &[i32]) -> Result<(), Refusal>
    ensures { MatchResult result (λ _. length out.now ≡ set1.n) (λ why. (length out.now ≢ set1.n) × (why ≡ Length Coefficients)) }
{
    if out.len() != Set1::N {
        return Err(Refusal::Length(Buffer::Coefficients));
    }
    Ok(())
}

// a, in 0..q-1 (SPEC 5.2).
pub fn sample_a(stream: &[u8], out: &mut [i32]) -> Result<(), Refusal>
    ensures { Is (outcome (sample_call set1 sample_a stream.now out.old) out.old) (report_of result) out.new }
{
    takes(out)?;
    let mut a = [0u32; Set1::N];
    crate::element::draw_a(Set1::numbers(), stream, &mut a)?;
    buffers::convert::store_plain(&a, out);
    Ok(())
}

// s, in -1..1 (SPEC 5.3). This call and the next differ in the sampler alone. One function over it, `F: Fn`, would need the sampler's definition as a
// ghost value and two clauses on `F.pre` and `F.post`, which is more than the lines that it saves.
pub fn sample_s(stream: &[u8], out: &mut [i32]) -> Result<(), Refusal>
    ensures { Is (outcome (sample_call set1 sample_s stream.now out.old) out.old) (report_of result) out.new }
{
    takes(out)?;
    let mut s = [0i32; Set1::N];
    crate::small::draw_s(Set1::numbers(), stream, &mut s)?;
    buffers::copy(out, &s);
    Ok(())
}

// The challenge: 25 coefficients are 1 or -1, the rest 0 (SPEC 5.5).
pub fn sample_challenge(stream: &[u8], out: &mut [i32]) -> Result<(), Refusal>
    ensures { Is (outcome (sample_call set1 challenge stream.now out.old) out.old) (report_of result) out.new }
{
    takes(out)?;
    let mut c = [0i32; Set1::N];
    crate::challenge::draw_challenge(Set1::numbers(), stream, &mut c)?;
    buffers::copy(out, &c);
    Ok(())
}
