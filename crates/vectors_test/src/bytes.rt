// Bytes: copied, patched, compared and computed.

// Bytes of a SHAKE256 that stands for more bytes than a record holds.
const DIGEST: usize = 32;

// What each byte of an output is before the call.
pub(crate) const FRESH: u8 = 165;

// Copies as much as both hold.
pub(crate) fn copy(from: &[u8], to: &mut [u8]) {
    let n = from.len().min(to.len());
    to[..n].copy_from_slice(&from[..n]);
}

// Xors bytes onto a buffer from its start.
pub(crate) fn patch(bytes: &[u8], to: &mut [u8]) {
    for (old, &byte) in to.iter_mut().zip(bytes) {
        *old ^= byte;
    }
}

// Whether each byte is as it was before the call.
pub(crate) fn untouched(s: &[u8]) -> bool {
    s.iter().all(|&byte| byte == FRESH)
}

// Whether two buffers, one after the other, are as expected: whole, or by the SHAKE256 of both.
pub(crate) fn agree(expected: &[u8], first: &[u8], second: &[u8]) -> bool {
    if expected.len() == DIGEST {
        let mut digest = [0u8; DIGEST];
        shake::shake256(first, second, b"", &mut digest);
        return &digest[..] == expected;
    }
    match expected.split_at_checked(first.len()) {
        Some((front, back)) => front == first && back == second,
        None => false,
    }
}

// The message of a seed: byte i is (i · (2 · (seed div 256) + 1) + i div 256 + seed mod 256) mod 256. The product is taken mod 256 as it goes.
pub(crate) fn message(seed: u32, m: &mut [u8]) {
    let [start, half, ..] = seed.to_le_bytes();
    let step = half % 128 * 2 + 1;
    let mut product: u8 = 0;
    for (i, byte) in m.iter_mut().enumerate() {
        *byte = product
            .wrapping_add(start)
            .wrapping_add((i / 256 % 256) as u8);
        product = product.wrapping_add(step);
    }
}
