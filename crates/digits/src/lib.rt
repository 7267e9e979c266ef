// Codes of w bits in bytes, lowest bit first: reading one, and packing all.
#![tactic(auto)]

ghost use Rattle.std.specs.Prelude.{◌≡◌, ℕ, ◌+◌, ◌*◌, ◌/◌, ◌%◌, ◌^◌, ◌≤◌, ◌<◌, length, get_or, take, drop};
ghost use Rattle.digits.specs.Digits.{value, bytes, byte_count};
ghost use Rattle.digits.specs.Inner.{Pushed, Flushed};

// The four bytes from a place on, as one little-endian number; bytes past the end count as 0.
pub fn window(s: &[u8], at: usize) -> u32
    requires { at < 2 ^ 40 }
    ensures { result ≡ value 256 (take 4 (drop at s.now)) }
{
    let Some(rest) = s.get(at..) else {
        return 0;
    };
    // Mostly all four are there, and are read at once.
    if let Some(bytes) = rest.first_chunk::<4>() {
        return u32::from_le_bytes(*bytes);
    }
    let mut bytes = [0; 4];
    bytes[..rest.len()].copy_from_slice(rest);
    u32::from_le_bytes(bytes)
}

// A byte, and 0 past the end.
fn byte(s: &[u8], i: usize) -> u8
    ensures { result ≡ get_or s.now i 0 }
{
    s.get(i).copied().unwrap_or(0)
}

// Code i of w bits. The four bytes of `window` are read one by one, so that the compiler leaves out those that a code of a known width does not
// reach: through `window` itself, unpacking t1 takes twice as long.
pub fn code_at(s: &[u8], w: usize, i: usize) -> u32
    requires { (w ≤ 25) × (i < 2 ^ 32) }
    ensures { result ≡ value 256 s.now / 2 ^ (w * i) % 2 ^ w }
{
    let p = w * i;
    let at = p / 8;
    let bytes = [
        byte(s, at),
        byte(s, at + 1),
        byte(s, at + 2),
        byte(s, at + 3),
    ];
    (u32::from_le_bytes(bytes) >> (p % 8)) % (1 << w)
}

// Bits on their way out: `bits` of them wait in `held`, and `at` bytes are written.
#[derive(Clone, Copy)]
struct Waiting {
    held: u64,
    bits: usize,
    at: usize,
}

impl Waiting {
    // A code of w bits more, above those that wait.
    fn push(&mut self, code: u32, w: usize)
        requires { (self.old.bits < 8) × (self.old.held < 2 ^ self.old.bits) × (w ≤ 20) × (code < 2 ^ w) }
        ensures { Pushed self.old code w self.new }
    {
        self.held += u64::from(code) << self.bits;
        self.bits += w;
    }

    // Writes the whole bytes that wait. A `while`: what ends it is the bits that are left, and no count.
    fn flush(&mut self, out: &mut [u8])
        requires { (self.old.held < 2 ^ self.old.bits) × (self.old.bits ≤ 32) × (8 * self.old.at + self.old.bits ≤ 8 * length out.old) }
        ensures { Flushed out.old self.old out.new self.new }
    {
        while 8 <= self.bits {
            out[self.at] = (self.held % 256) as u8;
            self.held /= 256;
            self.bits -= 8;
            self.at += 1;
        }
    }
}

// Codes of w bits, packed; bits that are left over in the last byte are 0.
pub fn pack_codes(codes: &[u32], w: usize, out: &mut [u8])
    requires w_nonzero { (0 < w) × (w ≤ 20) × (length codes.now ≤ 4096) × ((k : ℕ) → get_or codes.now k 0 < 2 ^ w) }
    requires out_len { length out.old ≡ byte_count w (length codes.now) }
    ensures { out.new ≡ bytes w (byte_count w (length codes.now)) codes.now }
{
    let mut waiting = Waiting {
        held: 0,
        bits: 0,
        at: 0,
    };
    for &code in codes {
        waiting.push(code, w);
        waiting.flush(out);
    }
    if 0 < waiting.bits {
        out[waiting.at] = (waiting.held % 256) as u8;
    }
}
