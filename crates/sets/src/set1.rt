// Set 1, trinomial level 1: X^1152 = X^576 - 1 over q = 8401537 (SPEC 1.3).
ghost use Rattle.std.specs.Prelude.{◌≡◌};
ghost use Rattle.sets.specs.Set.{set1};

use crate::limits;
use crate::numbers::{Numbers, Ring};

#[derive(Clone, Copy)]
pub struct Set1;

impl Set1 {
    pub const N: usize = 1152;

    pub const Q: u32 = 8401537;

    pub const D: u32 = 12;

    pub const TAU: usize = 25;

    pub const GAMMA1: u32 = 262144;

    pub const GAMMA2: u32 = 131274;

    pub const ETA: u32 = 1;

    // 2·τ·η, the largest magnitude of a coefficient of c·s.
    pub const BETA: u32 = 2 * (Self::TAU as u32) * Self::ETA;

    pub const OMEGA: usize = 80;

    // α = 2·γ2, the width of a step, and m = (q - 1)/α, the number of steps.
    pub const ALPHA: u32 = 2 * Self::GAMMA2;

    pub const M: u32 = (Self::Q - 1) / Self::ALPHA;

    // 2^d, and the largest t1: that of q - 1.
    pub const POWER: u32 = 1 << Self::D;

    pub const T1_TOP: u32 = (Self::Q - 1 + Self::POWER / 2 - 1) / Self::POWER;

    pub const T1_BITS: usize = 12;

    pub const T0_BITS: usize = 12;

    pub const S_BITS: usize = 2;

    pub const Z_BITS: usize = 19;

    pub const W1_BITS: usize = 5;

    pub const A_BYTES: usize = 3;

    pub const A_BITS: usize = 8 * Self::A_BYTES;

    pub const A_STREAM: usize = 96 * 136;

    pub const S_GROUP: usize = 1;

    pub const S_STREAM: usize = 6 * 136;

    pub const J_BITS: usize = 11;

    pub const C_STREAM: usize = 4 * 136;

    // Bytes of the packed elements; the stream of y is as long as a packed z.
    pub const T1_BYTES: usize = Self::N * Self::T1_BITS / 8;

    pub const T0_BYTES: usize = Self::N * Self::T0_BITS / 8;

    pub const S_BYTES: usize = Self::N * Self::S_BITS / 8;

    pub const Z_BYTES: usize = Self::N * Self::Z_BITS / 8;

    pub const W1_BYTES: usize = Self::N * Self::W1_BITS / 8;

    pub const HINT_BYTES: usize = Self::N / 8;

    // SPEC 6.7 to 6.9.
    pub const PUBLIC_KEY: usize = limits::SEED + Self::T1_BYTES;

    pub const SECRET_KEY: usize = limits::SEED
        + limits::HASH
        + limits::SEED
        + 2 * Self::S_BYTES
        + Self::T0_BYTES;

    pub const SIGNATURE: usize = limits::HASH + Self::Z_BYTES + Self::HINT_BYTES;

    pub fn numbers() -> Numbers
        ensures { result ≡ set1 }
    {
        Numbers {
            n: Self::N,
            q: Self::Q,
            d: Self::D,
            tau: Self::TAU,
            gamma1: Self::GAMMA1,
            gamma2: Self::GAMMA2,
            eta: Self::ETA,
            beta: Self::BETA,
            omega: Self::OMEGA,
            t1bits: Self::T1_BITS,
            t1top: Self::T1_TOP,
            sbits: Self::S_BITS,
            zbits: Self::Z_BITS,
            w1bits: Self::W1_BITS,
            abytes: Self::A_BYTES,
            abits: Self::A_BITS,
            astream: Self::A_STREAM,
            sbytes: Self::S_GROUP,
            sstream: Self::S_STREAM,
            jbits: Self::J_BITS,
            cstream: Self::C_STREAM,
            ring: Ring::Trinomial,
        }
    }
}
