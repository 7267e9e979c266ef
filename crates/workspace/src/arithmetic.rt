// Arithmetic on places: coefficient by coefficient, and the product.
ghost use Rattle.std.specs.Prelude.{◌≡◌, ◌+◌, ◌-◌, ◌*◌, ◌%◌, ◌^◌, ◌<◌};
ghost use Rattle.sets.specs.Good.{Good, Trinomial};
ghost use Rattle.ring.specs.Profile.{mul};
ghost use Rattle.ring.specs.Inner.{Residues};
ghost use Rattle.workspace.specs.Inner.{slot, Room, Made, combined, made};

use crate::Place;
use residues::divide::{modulo, wrap};
use sets::limits;
use sets::numbers::Numbers;

// What is made of a coefficient x, and of y where there are two. It is an enum and no closure: what a closure answers need not be one number,
// and the contract of `combine` permits one outcome (combine_one of proofs/Determined.antt).
#[derive(Clone, Copy)]
pub enum Op {
    // x + y
    Sum,
    // x - y
    Difference,
    // x - 2^d·y
    LessScaled,
    // MakeHint(-y, x + y), the hint of signing where x is of w - c·s2 and y of c·t0
    Hint,
    // UseHint(x, y)
    Used,
    // the high bits of x
    High,
    // the two parts of Power2Round of x
    PowerHigh,
    PowerLow,
}

fn less_scaled(p: Numbers, x: u32, y: u32) -> u32
    requires good { Good p }
    requires x_lt_q { (x < p.q) × (y < p.q) }
    ensures { result ≡ (x + (p.q - y * 2 ^ p.d % p.q)) % p.q }
{
    let less = modulo(p.q, u64::from(y) * (1u64 << p.d));
    wrap(p.q, x + (p.q - less))
}

fn combined(p: Numbers, op: Op, x: u32, y: u32) -> u32
    requires good { Good p }
    requires x_lt_q { (x < p.q) × (y < p.q) }
    ensures { result ≡ combined p op x y }
{
    match op {
        Op::Sum => wrap(p.q, x + y),
        Op::Difference => wrap(p.q, x + (p.q - y)),
        Op::LessScaled => less_scaled(p, x, y),
        Op::Hint => rounding::hint_of(p, wrap(p.q, p.q - y), wrap(p.q, x + y)),
        Op::Used => rounding::used_of(p, x, y),
        Op::High => rounding::high_of(p, x),
        Op::PowerHigh => rounding::power_of(p, x).high,
        Op::PowerLow => residues::reduce(p.q, rounding::power_of(p, x).low),
    }
}

// Place k, coefficient by coefficient, of places i and j. They may be the same.
pub fn combine(p: Numbers, op: Op, work: &mut [u32], i: Place, j: Place, k: Place)
    requires trinomial { Trinomial p × Room p work.old }
    requires residues { Residues p (slot p i work.old) × Residues p (slot p j work.old) }
    ensures { Made p i j k (made p op) work.old work.new }
{
    let first = i.span(p).start;
    let second = j.span(p).start;
    let to = k.span(p).start;
    for t in 0..p.n {
        work[to + t] = combined(p, op, work[first + t], work[second + t]);
    }
}

// Place k = place i times place j. The product passes over the zeros of place i.
pub fn multiply(p: Numbers, work: &mut [u32], i: Place, j: Place, k: Place)
    requires trinomial { Trinomial p × Room p work.old }
    requires residues { Residues p (slot p i work.old) × Residues p (slot p j work.old) }
    ensures { Made p i j k (mul p) work.old work.new }
{
    let mut product = [0u32; limits::CAPACITY];
    let product = &mut product[..p.n];
    ring::multiply(
        p,
        &work[i.span(p).range()],
        &work[j.span(p).range()],
        product,
    );
    work[k.span(p).range()].copy_from_slice(product);
}
