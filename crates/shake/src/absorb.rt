// Absorbing, a block at a time.
ghost use Rattle.std.specs.Prelude.{◌≡◌, ℕ, ◌-◌, ◌*◌, ◌<◌, List, [], ◌++◌, fold, length, take};
ghost use Rattle.keccak.specs.Keccak.{row, keccak};
ghost use Rattle.shake.specs.Shake.{rate, word, xored, pad, zeros};
ghost use Rattle.shake.specs.Inner.{mixed, taken};

use crate::{RATE, State};
use std::array;
use std::marker::Model;

// Lane `i` of a block, and 0 after its last one.
fn lane(block: &[u8; RATE], i: usize) -> u64
    ensures { result ≡ word block.now (8 * i) }
{
    let (lanes, _) = block.as_chunks::<8>();
    lanes.get(i).map_or(0, |bytes| u64::from_le_bytes(*bytes))
}

// Row `y` of a state with a block xored in, where the state's own is `r`.
fn row(r: [u64; 5], block: &[u8; RATE], y: usize) -> [u64; 5]
    requires { y < 5 }
    ensures { result ≡ row (mixed r block.now) y }
{
    array::from_fn(|x| r[x] ^ lane(block, 5 * y + x))
}

// The state with a block xored in. The rows stand written out: `array::from_fn` over them was tried, and the search did not find that its results
// are the state.
#[tactic(auto, unfolding(crate::specs::Shake::xored))]
fn xored(a: State, block: &[u8; RATE]) -> State
    ensures { result ≡ xored a block.now }
{
    [
        row(a[0], block, 0),
        row(a[1], block, 1),
        row(a[2], block, 2),
        row(a[3], block, 3),
        row(a[4], block, 4),
    ]
}

// The state after the blocks.
fn absorbed(mut s: State, blocks: &[[u8; RATE]]) -> State
    ensures { result ≡ fold (λ s p. keccak (xored s p)) s blocks.now }
{
    for block in blocks {
        s = keccak::permute(xored(s, block));
    }
    s
}

// A message that is being absorbed: the state after its whole blocks, and the bytes after those, the first `len` of `held`
// (there is no heap).
#[derive(Drop)]
pub(crate) struct Sponge {
    state: State,
    held: [u8; RATE],
    len: usize,
}

impl Model for Sponge {
    ghost Value = { List (List ℕ) × List ℕ };

    ghost view = { λ s. (s.state, take s.len s.held) };

    ghost invariant = { λ s. s.len < rate };
}

impl Sponge {
    pub(crate) fn new() -> Sponge
        ensures { result ≡ (zeros, []) }
    {
        Sponge {
            state: [[0; 5]; 5],
            held: [0; RATE],
            len: 0,
        }
    }

    // Takes in `m`, the next bytes of the message.
    pub(crate) fn absorb(&mut self, m: &[u8])
        ensures { self.new ≡ taken self.old m.now }
    {
        // The block is filled in a local: the compiler then sees that it lies apart from `m`, and asks for no memmove.
        let mut held = self.held;
        let Some((start, rest)) = m.split_at_checked(RATE - self.len) else {
            let end = self.len + m.len();
            held[self.len..end].copy_from_slice(m);
            self.held = held;
            self.len = end;
            return;
        };
        held[self.len..].copy_from_slice(start);
        let (blocks, left) = rest.as_chunks::<RATE>();
        self.state = keccak::permute(xored(self.state, &held));
        self.state = absorbed(self.state, blocks);
        held[..left.len()].copy_from_slice(left);
        self.held = held;
        self.len = left.len();
    }

    // The state with the last block xored in, which ends with the suffix and the padding. No permutation follows here:
    // squeezing begins with it.
    pub(crate) fn padded(self) -> State
        ensures { result ≡ xored self.0 (self.1 ++ pad (rate - length self.1)) }
    {
        let mut block = self.held;
        block[self.len..].fill(0);
        block[self.len] = 0x1f;
        block[RATE - 1] |= 0x80;
        xored(self.state, &block)
    }
}
