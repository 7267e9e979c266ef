// The rounding and hint rules (SPEC 3), over remainders, for any set.
#![tactic(auto)]

pub mod set1;

ghost use Rattle.std.specs.Prelude.{◌≡◌, ◌<◌, pos, nat_abs};
ghost use Rattle.sets.specs.Good.{Good};
ghost use Rattle.rounding.specs.Rounding.{parts, high_bits, low_bits, make_hint, use_hint, power2_round};

use residues::divide::{quotient, wrap};
use sets::numbers::Numbers;

#[derive(Clone, Copy, PartialEq, Eq, Debug)]
pub struct Split {
    pub high: u32,
    pub low: i32,
}

// SPEC 3.4: Decompose of a remainder. With u = x + γ2 mod q the high bits are (u - 1)/α, where 0 - 1 is 0, and no case is left for the
// top half step.
pub fn split_of(p: Numbers, x: u32) -> Split
    requires good { Good p }
    requires x_lt_q { x < p.q }
    ensures { result ≡ parts p x }
{
    let g = p.gamma2;
    let u = wrap(p.q, x + g);
    let high = quotient(2 * g, u.saturating_sub(1));
    Split {
        high,
        low: residues::difference(u, g + high * (2 * g)),
    }
}

// SPEC 3.5: the high bits alone.
pub fn high_of(p: Numbers, x: u32) -> u32
    requires good { Good p }
    requires x_lt_q { x < p.q }
    ensures { result ≡ high_bits p (pos x) }
{
    split_of(p, x).high
}

// SPEC 3.5: the magnitude of the low bits.
pub fn low_of(p: Numbers, x: u32) -> u32
    requires good { Good p }
    requires x_lt_q { x < p.q }
    ensures { result ≡ nat_abs (low_bits p (pos x)) }
{
    split_of(p, x).low.unsigned_abs()
}

// SPEC 3.6: MakeHint of two remainders.
pub fn hint_of(p: Numbers, z: u32, r: u32) -> u32
    requires good { Good p }
    requires z_lt_q { (z < p.q) × (r < p.q) }
    ensures { result ≡ make_hint p (pos z) (pos r) }
{
    let sum = wrap(p.q, r + z);
    u32::from(high_of(p, r) != high_of(p, sum))
}

// SPEC 3.7: UseHint of a hint and a remainder: every hint but 0 is taken as 1.
pub fn used_of(p: Numbers, h: u32, r: u32) -> u32
    requires good { Good p }
    requires r_lt_q { r < p.q }
    ensures { result ≡ use_hint p h (pos r) }
{
    let Split { high, low } = split_of(p, r);
    if h == 0 {
        return high;
    }
    let m = quotient(2 * p.gamma2, p.q - 1);
    let step = if 0 < low { 1 } else { m - 1 };
    wrap(m, high + step)
}

// SPEC 3.8: Power2Round of a remainder: r1 is (x + 2^(d-1) - 1)/2^d.
pub fn power_of(p: Numbers, x: u32) -> Split
    requires good { Good p }
    requires x_lt_q { x < p.q }
    ensures { result ≡ power2_round p (pos x) }
{
    let half = 1u32 << (p.d - 1);
    let high = (x + (half - 1)) / (2 * half);
    Split {
        high,
        low: residues::difference(x, high * (2 * half)),
    }
}
