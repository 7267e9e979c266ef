// The two ways between signed numbers and remainders; inside, everything is a remainder in 0..q-1.
#![tactic(auto)]

pub mod divide;

ghost use Rattle.std.specs.Prelude.{◌≡◌, cond, ◌^◌, ◌/◌, ◌<◌, leb, nat_abs};
ghost use Rattle.std.proofs.Math.IntN.{sub_ℕ};
ghost use Rattle.residues.specs.Remainder.{residue, signed};

// r reduced to 0..q-1.
pub fn reduce(q: u32, r: i32) -> u32
    requires { 0 < q }
    ensures { result ≡ residue q r }
{
    // The magnitude is taken in each branch, where the sign is known: taken before them, it costs two instructions of every rounding call.
    if r < 0 {
        let size = r.unsigned_abs();
        q - 1 - divide::modulo(q, u64::from(size - 1))
    } else {
        divide::modulo(q, u64::from(r.unsigned_abs()))
    }
}

// a - b, signed.
pub fn difference(a: u32, b: u32) -> i32
    requires { (a < 2 ^ 31) × (b < 2 ^ 31) }
    ensures { result ≡ sub_ℕ a b }
{
    a.cast_signed() - b.cast_signed()
}

// What is taken from a remainder to centre it.
fn above_half(q: u32, x: u32) -> u32
    ensures { result ≡ cond (leb x (q / 2)) 0 q }
{
    if x <= q / 2 { 0 } else { q }
}

// The representative of a remainder x that is at most q/2 in magnitude.
pub fn centre(q: u32, x: u32) -> i32
    requires { (x < q) × (q < 2 ^ 31) }
    ensures { result ≡ signed q x }
{
    difference(x, above_half(q, x))
}

// Its magnitude: the norm of one coefficient.
pub fn magnitude(q: u32, x: u32) -> u32
    requires { x < q }
    ensures { result ≡ nat_abs (signed q x) }
{
    x.min(q - x)
}
