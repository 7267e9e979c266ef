// The limits that every set keeps (SPEC 1.4), and what the code's own arrays hold. There is no heap: each array has room for the largest set, and a
// function slices its own to its set's length.

pub const MESSAGE_MAX: usize = 32768;

pub const TRY_MAX: u32 = 1000;

// Bytes of a seed: ζ, ζ', ξ1, ξ2, K.
pub const SEED: usize = 32;

// Bytes of ξ1, ξ2 and K together.
pub const SEEDS: usize = 3 * SEED;

// Bytes of ph and of c̃.
pub const HASH: usize = 32;

// Bytes of μ and of ρ.
pub const WIDE_HASH: usize = 64;

// The longest element that the code's own arrays hold: that of the largest set that has a constructor.
pub const CAPACITY: usize = 1152;

// The longest stream that they hold, and the longest packed w1.
pub const STREAM: usize = 13056;

pub const PACKED_W1: usize = 720;
