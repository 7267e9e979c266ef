// Remainders and quotients without a slow division: by a number that is known beforehand a division is a multiplication, and below twice
// the modulus it is a comparison. The modulus and the step of set 1 are known here; another set's are divided by as they come.
ghost use Rattle.std.specs.Prelude.{◌≡◌, ◌*◌, ◌/◌, ◌%◌, ◌<◌};

use sets::set1::Set1;

// x reduced to 0..q-1. The casts narrow a number below q, which is a u32: nothing can be lost, and `try_from` would add a refusal that never comes.
pub fn modulo(q: u32, x: u64) -> u32
    requires { 0 < q }
    ensures { result ≡ x % q }
{
    if q == Set1::Q {
        // By `as`: with `u64::from` the compiler takes both branches for one, and divides.
        (x % (Set1::Q as u64)) as u32
    } else {
        (x % u64::from(q)) as u32
    }
}

// The same of an x below 2q.
pub fn wrap(q: u32, x: u32) -> u32
    requires { x < 2 * q }
    ensures { result ≡ x % q }
{
    if x < q { x } else { x - q }
}

// How often a step goes into x.
pub fn quotient(step: u32, x: u32) -> u32
    requires { 0 < step }
    ensures { result ≡ x / step }
{
    if step == Set1::ALPHA {
        x / Set1::ALPHA
    } else {
        x / step
    }
}
