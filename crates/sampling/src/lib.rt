// The samplers (SPEC 5): a, s and the challenge from a stream of any length, for any set.
#![tactic(auto)]

pub mod challenge;
pub mod element;
pub mod set1;
pub mod small;

ghost use Rattle.std.specs.Prelude.{◌≡◌, cond, ◌<◌, length, get_or};
ghost use Rattle.outcome.specs.Outcome.{Is};
ghost use Rattle.answers.specs.declared.Refusal.TheVariants.{Dry};
ghost use Rattle.sampling.specs.Inner.{kept};

use answers::Refusal;

// The stream ended before every coefficient was found (SPEC 5.1).
#[derive(Clone, Copy)]
pub struct Dry;

impl From<Dry> for Refusal {
    ghost from_gives = { λ dry why. why ≡ Dry };

    fn from(_dry: Dry) -> Self {
        Refusal::Dry
    }
}

// Whether a draw passes is chance, so a jump on it would often be guessed wrong. What is written for it is one value or another, which takes no
// jump, and stands in a function of its own so that the compiler keeps it so.
fn taken<T: Copy>(passes: bool, x: T, zero: T) -> T
    ensures { result ≡ cond passes x zero }
{
    if passes { x } else { zero }
}

// A draw that passes goes to the next place, which holds 0. The answer is how many were found with it.
fn keep<T: Copy>(passes: bool, x: T, zero: T, out: &mut [T], found: usize) -> usize
    requires { (found < length out.old) × (get_or out.old found zero ≡ zero) }
    ensures { Is (kept passes x found out.old) result out.new }
{
    out[found] = taken(passes, x, zero);
    found + usize::from(passes)
}
