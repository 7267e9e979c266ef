// The product in the ring of set 1, over signed 32-bit numbers that nobody has checked.
ghost use Rattle.outcome.specs.Outcome.{Is};
ghost use Rattle.answers.specs.Refusals.{report_of};
ghost use Rattle.answers.specs.Result.{outcome};
ghost use Rattle.ring.specs.Calls.{product_call};
ghost use Rattle.sets.specs.Set.{set1};

use answers::{Buffer, Refusal};
use sets::set1::Set1;

// SPEC 2.6: the call. Its factors are read mod q, and it answers in 0..q-1.
pub fn product(first: &[i32], second: &[i32], out: &mut [i32]) -> Result<(), Refusal>
    ensures { Is (outcome (product_call set1 first.now second.now out.old) out.old) (report_of result) out.new }
{
    if first.len() != Set1::N {
        return Err(Refusal::Length(Buffer::First));
    }
    if second.len() != Set1::N {
        return Err(Refusal::Length(Buffer::Second));
    }
    if out.len() != Set1::N {
        return Err(Refusal::Length(Buffer::Coefficients));
    }
    let mut a = [0u32; Set1::N];
    let mut b = [0u32; Set1::N];
    let mut c = [0u32; Set1::N];
    buffers::convert::reduce_all(Set1::Q, first, &mut a);
    buffers::convert::reduce_all(Set1::Q, second, &mut b);
    crate::multiply(Set1::numbers(), &a, &b, &mut c);
    buffers::convert::store_plain(&c, out);
    Ok(())
}
