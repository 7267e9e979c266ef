// The challenge (SPEC 5.5).
ghost use Rattle.std.specs.Prelude.{◌≡◌, ◌%◌, ◌<◌, ◌≤◌, pos, length, take, get_or, set};
ghost use Rattle.outcome.specs.Outcome.{Is};
ghost use Rattle.sets.specs.Good.{Good};
ghost use Rattle.digits.specs.Digits.{value};
ghost use Rattle.sampling.specs.Samplers.{sign};
ghost use Rattle.sampling.specs.Inner.{drawn_c};

use crate::Dry;
use sets::numbers::Numbers;

// The number whose bit k is the sign of step k (SPEC 5.5). A stream that is too short for it has no draws either.
fn sign_bits(stream: &[u8]) -> u64
    ensures { 8 ≤ length stream.now → result ≡ value 256 (take 8 stream.now) }
{
    stream
        .first_chunk()
        .map_or(0, |head| u64::from_le_bytes(*head))
}

// A 1 means -1 (SPEC 5.5).
fn sign(bit: u64) -> i32
    ensures { result ≡ sign bit }
{
    if bit == 1 { -1 } else { 1 }
}

// A draw, below a power of two.
fn draw(power: usize, pair: [u8; 2]) -> usize
    requires { 0 < power }
    ensures { result ≡ value 256 pair % power }
{
    usize::from(u16::from_le_bytes(pair)) % power
}

// Place i takes the value at j, and j takes v.
fn put(out: &mut [i32], i: usize, j: usize, v: i32)
    requires { (i < length out.old) × (j ≤ i) }
    ensures { out.new ≡ set (set out.old i (get_or out.old j (pos 0))) j v }
{
    out[i] = out[j];
    out[j] = v;
}

// A draw past its place is drawn again, never reduced.
pub fn draw_challenge(p: Numbers, stream: &[u8], out: &mut [i32]) -> Result<(), Dry>
    requires good { Good p }
    requires out_len { length out.old ≡ p.n }
    ensures { Is (drawn_c p stream.now) result out.new }
{
    buffers::clear(out, 0);
    let power = 1usize << p.jbits;
    let mut signs = sign_bits(stream);
    let (pairs, _) = stream[stream.len().min(8)..].as_chunks();
    let mut draws = pairs.iter().map(|pair| draw(power, *pair));
    for place in p.n - p.tau..p.n {
        let j = draws.find(|j| *j <= place).ok_or(Dry)?;
        put(out, place, j, sign(signs % 2));
        signs /= 2;
    }
    Ok(())
}
