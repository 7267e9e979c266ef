// Packed elements, read as remainders by q.
ghost use Rattle.std.specs.Prelude.{◌≡◌, map, ℕ, ◌+◌, ◌^◌, ◌≤◌, ◌<◌, length, get_or, pos, ◌-ℤ◌};
ghost use Rattle.residues.specs.Remainder.{residue};
ghost use Rattle.outcome.specs.Outcome.{Is};
ghost use Rattle.layouts.specs.Layouts.{allowed, size};
ghost use Rattle.layouts.specs.Hints.{ones};
ghost use Rattle.layouts.specs.Inner.{Readable, taken, remainder, unpacked_to};

use crate::layout::Layout;

// The lowest index of a code that is not allowed.
#[derive(Clone, Copy)]
pub struct BadCode {
    pub index: usize,
}

// base - v, as a remainder by q.
#[tactic(auto, using(crate::proofs::Reading::below_not, crate::proofs::Reading::below_zero))]
fn below(q: u32, base: u32, v: u32) -> u32
    requires { (base < q) × (v < q) × (q < 2 ^ 25) }
    ensures { result ≡ residue q (pos base -ℤ pos v) }
{
    if v <= base { base - v } else { q + base - v }
}

// The remainder of what a code means, where the code is allowed.
#[tactic(auto, using(residues::proofs::Remainders::residue_small))]
fn value_of(l: Layout, q: u32, v: u32) -> Option<u32>
    requires { Readable l q }
    ensures { result ≡ taken (allowed l) (remainder l q) v }
{
    if !(l.least..=l.most).contains(&v) {
        return None;
    }
    Some(if l.down { below(q, l.base, v) } else { v })
}

// Each code is taken by let .. else, which leaves at the first bad one with its place (SPEC 6.5). Where this is called the layout is known, and most
// of a code's work falls away. By itself the compiler takes it for too long to go there, and unpacking t1 takes three times the instructions.
#[inline(always)]
pub fn unpack(l: Layout, q: u32, packed: &[u8], out: &mut [u32]) -> Result<(), BadCode>
    requires readable { Readable l q }
    requires packed_len { (length packed.now ≡ size l (length out.old)) × (length out.old ≤ 4096) }
    ensures { Is (unpacked_to l q packed.now out.old) result out.new }
{
    for (i, x) in out.iter_mut().enumerate() {
        let Some(value) = value_of(l, q, digits::code_at(packed, l.bits, i)) else {
            return Err(BadCode { index: i });
        };
        *x = value;
    }
    Ok(())
}

// How many of the hint bits are ones.
pub fn count_ones(bits: &[u32]) -> usize
    requires { ((k : ℕ) → get_or bits.now k 0 ≤ 1) × (length bits.now ≤ 4096) }
    ensures { result ≡ ones (map pos bits.now) }
{
    bits.iter().map(|&bit| bit as usize).sum()
}
