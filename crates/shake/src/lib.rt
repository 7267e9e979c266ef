// SHAKE256 of FIPS 202 (SPEC 4.9 to 4.11) over a message in three parts.
#![tactic(auto)]

ghost use Rattle.std.specs.Prelude.{◌≡◌, ◌++◌, length};
ghost use Rattle.shake.specs.Shake.{shake256};

mod absorb;
mod squeeze;

use crate::absorb::Sponge;

// The rate of SHAKE256 in bytes (SPEC 4.9).
const RATE: usize = 136;

// Five rows of five lanes (SPEC 4.1).
type State = [[u64; 5]; 5];

// SPEC 4.11: fills `out` with SHAKE256 of the three parts, taken as joined.
pub fn shake256(first: &[u8], second: &[u8], third: &[u8], out: &mut [u8])
    ensures { out.new ≡ shake256 (first.now ++ (second.now ++ third.now)) (length out.old) }
{
    let mut sponge = Sponge::new();
    sponge.absorb(first);
    sponge.absorb(second);
    sponge.absorb(third);
    squeeze::squeeze(sponge.padded(), out);
}
