// The rounding and hint rules of set 1, over every signed 32-bit number (SPEC 3.9). A sum r + z is one of whole numbers, and is reduced after that (SPEC 3.6).
ghost use Rattle.std.specs.Prelude.{◌≡◌, ◌<◌};
ghost use Rattle.sets.specs.Set.{set1};
ghost use Rattle.residues.specs.Remainder.{residue, centred, magnitude};
ghost use Rattle.rounding.specs.Rounding.{decompose, high_bits, low_bits, make_hint, power2_round, norm};
ghost use Rattle.rounding.specs.Used.{used_hint, used_report, reported};

use crate::Split;
use answers::Refusal;
use sets::set1::Set1;

// SPEC 3.1: r reduced to 0..q-1.
pub fn plain_remainder(r: i32) -> u32
    ensures value { result ≡ residue set1.q r }
    ensures below { result < set1.q }
{
    residues::reduce(Set1::Q, r)
}

// SPEC 3.2: r centred by q.
pub fn centred_remainder(r: i32) -> i32
    ensures { result ≡ centred set1.q r }
{
    residues::centre(Set1::Q, plain_remainder(r))
}

pub fn decompose(r: i32) -> Split
    ensures { result ≡ decompose set1 r }
{
    crate::split_of(Set1::numbers(), plain_remainder(r))
}

pub fn high_bits(r: i32) -> u32
    ensures { result ≡ high_bits set1 r }
{
    decompose(r).high
}

pub fn low_bits(r: i32) -> i32
    ensures { result ≡ low_bits set1 r }
{
    decompose(r).low
}

// SPEC 3.6: whether a hint is needed.
pub fn make_hint(z: i32, r: i32) -> u32
    ensures { result ≡ make_hint set1 z r }
{
    crate::hint_of(Set1::numbers(), plain_remainder(z), plain_remainder(r))
}

// SPEC 3.9: the high bits, or refusal 6.
pub fn use_hint(h: u32, r: i32) -> Result<u32, Refusal>
    ensures { used_report result ≡ reported (used_hint set1 h r) }
{
    if 1 < h {
        return Err(Refusal::Hint);
    }
    Ok(crate::used_of(Set1::numbers(), h, plain_remainder(r)))
}

pub fn power2round(r: i32) -> Split
    ensures { result ≡ power2_round set1 r }
{
    crate::power_of(Set1::numbers(), plain_remainder(r))
}

// SPEC 3.3: the norm of one coefficient.
fn magnitude(r: i32) -> u32
    ensures { result ≡ magnitude set1.q r }
{
    residues::magnitude(Set1::Q, plain_remainder(r))
}

// SPEC 3.3: the norm of an element of any length: the largest magnitude of its coefficients centred by q.
pub fn norm(values: &[i32]) -> u32
    ensures { result ≡ norm set1.q values.now }
{
    values.iter().map(|&r| magnitude(r)).max().unwrap_or(0)
}
