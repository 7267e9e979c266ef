// The product.
ghost use Rattle.outcome.specs.Outcome.{Is};
ghost use Rattle.answers.specs.Result.{outcome};
ghost use Rattle.ring.specs.Calls.{product_call};
ghost use Rattle.ncc_c.specs.Answer.{coded};
ghost use Rattle.sets.specs.Set.{set1};

#[unsafe(no_mangle)]
pub extern "C" fn ncc_product(first: &[i32], second: &[i32], out: &mut [i32]) -> u64
    ensures { Is (coded (outcome (product_call set1 first.now second.now out.old) out.old)) result out.new }
{
    crate::answer::answer(ring::set1::product(first, second, out))
}
