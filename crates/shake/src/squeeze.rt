// Squeezing, a block at a time.
ghost use Rattle.std.specs.Prelude.{◌≡◌, ◌+◌, ◌/◌, length, take};
ghost use Rattle.keccak.specs.Keccak.{keccak};
ghost use Rattle.shake.specs.Shake.{rate, bytes, squeezed};
ghost use Rattle.shake.specs.Inner.{lanes_bytes};

use crate::{RATE, State};

// The bytes of a row's lanes, lowest first.
fn row_bytes(r: [u64; 5]) -> [[u8; 8]; 5]
    ensures { result ≡ lanes_bytes r }
{
    r.map(u64::to_le_bytes)
}

// The first block of a state's bytes.
fn block(a: &State) -> [u8; RATE]
    ensures { result ≡ bytes rate 0 a.now }
{
    let rows = a.map(row_bytes);
    let lanes = rows.as_flattened();
    *lanes.as_flattened().first_chunk().unwrap()
}

// Fills `out` from the state, with a permutation before each block. The last one may be cut. Blocks go by their place: std
// says of `chunks_mut` what each chunk is, and not what the slice ends as.
pub(crate) fn squeeze(mut s: State, out: &mut [u8])
    ensures { out.new ≡ take (length out.old) (squeezed (length out.old / rate + 1) (keccak s)) }
{
    let whole = out.len() / RATE;
    for k in 0..whole {
        s = keccak::permute(s);
        let at = k * RATE;
        out[at..at + RATE].copy_from_slice(&block(&s));
    }
    let left = out.len() % RATE;
    if left != 0 {
        s = keccak::permute(s);
        out[whole * RATE..].copy_from_slice(&block(&s)[..left]);
    }
}
