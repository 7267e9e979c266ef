// Places filled from the streams of SHAKE256 (SPEC 5).
ghost use Rattle.std.specs.Prelude.{◌^◌, ◌<◌};
ghost use Rattle.sets.specs.Good.{Trinomial};
ghost use Rattle.shake.specs.Shake.{shake256};
ghost use Rattle.sampling.specs.Samplers.{drawn};
ghost use Rattle.streams.specs.Streams.{expand_a, expand_s, expand_y, expand_c};
ghost use Rattle.workspace.specs.declared.Place.TheVariants as place;
ghost use Rattle.workspace.specs.Inner.{Room, Touched, Holds, Fills};

use crate::Place;
use answers::Refusal;
use sets::numbers::Numbers;

// a of ζ.
pub fn fill_a(p: Numbers, zeta: &[u8], work: &mut [u32]) -> Result<(), Refusal>
    requires { Trinomial p × Room p work.old }
    ensures { Fills p place.A (expand_a p shake256 zeta.now) work.old result work.new }
{
    streams::expand_a(p, zeta, &mut work[Place::A.span(p).range()])
}

// s1 of ξ1, or s2 of ξ2.
pub fn fill_s(p: Numbers, xi: &[u8], work: &mut [u32], k: Place) -> Result<(), Refusal>
    requires { Trinomial p × Room p work.old }
    ensures { Fills p k (expand_s p shake256 xi.now) work.old result work.new }
{
    streams::expand_s(p, xi, &mut work[k.span(p).range()])
}

// The challenge of c̃.
pub fn fill_c(p: Numbers, commitment: &[u8], work: &mut [u32]) -> Result<(), Refusal>
    requires { Trinomial p × Room p work.old }
    ensures { Fills p place.C (drawn (expand_c p shake256 commitment.now)) work.old result work.new }
{
    streams::expand_c(p, commitment, &mut work[Place::C.span(p).range()])
}

// y of try κ.
pub fn fill_y(p: Numbers, rho: &[u8], kappa: u32, work: &mut [u32])
    requires trinomial { Trinomial p × Room p work.old }
    requires kappa_bound { kappa < 2 ^ 16 }
    ensures { Touched p place.Y work.old work.new × Holds p place.Y (expand_y p shake256 rho.now kappa) work.new }
{
    streams::expand_y(p, rho, kappa, &mut work[Place::Y.span(p).range()]);
}
