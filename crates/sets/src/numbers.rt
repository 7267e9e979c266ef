// The numbers of a set as one value, which inner functions take (SPEC 1.1). A set's own type hands it out. That they meet the conditions (Good,
// Trinomial) is a clause of each function and no fact of a type: the definitions take this record as it is, and so a type round it would give
// each function two names for its set.

// The rings that are known (SPEC 2.4): X^n = X^(n/2) - 1, and X^n = X + 1.
#[derive(Clone, Copy)]
pub enum Ring {
    Trinomial,
    Prime,
}

// Names as in SPEC 1.1.
#[derive(Clone, Copy)]
pub struct Numbers {
    pub n: usize,
    pub q: u32,
    pub d: u32,
    pub tau: usize,
    pub gamma1: u32,
    pub gamma2: u32,
    pub eta: u32,
    pub beta: u32,
    pub omega: usize,
    // Widths of the packed layouts, in bits, and the largest t1. t0 takes d bits and a hint one.
    pub t1bits: usize,
    pub t1top: u32,
    pub sbits: usize,
    pub zbits: usize,
    pub w1bits: usize,
    // A draw of a: its bytes, the low bits that are kept, and the bytes of the stream.
    pub abytes: usize,
    pub abits: usize,
    pub astream: usize,
    // Codes of s are read from whole groups of so many bytes.
    pub sbytes: usize,
    pub sstream: usize,
    // A draw of the challenge: two bytes, of which so many low bits are kept.
    pub jbits: usize,
    pub cstream: usize,
    pub ring: Ring,
}
