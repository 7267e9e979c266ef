// The parts of keys and signatures: how long each one is, and where it stands (SPEC 6.7 to 6.10, 7.1).
ghost use Rattle.std.specs.Prelude.{◌≡◌, ℕ, ◌+◌, ◌≤◌, length, get_or, take};
ghost use Rattle.sets.specs.Good.{Good};
ghost use Rattle.layouts.specs.Layouts.{layout_of, hint_layout, size};
ghost use Rattle.packing.specs.Parts.{total, parts_in, parts_of, whole_of, rank, bytes_of};
ghost use Rattle.packing.specs.Inner.{lengths, size_in, start_in, put};

use answers::Field;
use layouts::layout::Layout;
use sets::limits;
use sets::numbers::Numbers;
use std::ops::Range;

#[derive(Clone, Copy)]
pub enum Whole {
    PublicKey,
    SecretKey,
    Signature,
    Seeds,
}

// Where a part starts, and where it ends. It is a type of its own because a range is not Copy.
#[derive(Clone, Copy)]
pub struct Span {
    pub start: usize,
    pub end: usize,
}

impl Span {
    // It as a range, by which slices are indexed.
    pub fn range(self) -> Range<usize>
        ensures { (result.start ≡ self.start) × (result.end ≡ self.end) }
    {
        self.start..self.end
    }
}

// Those of a public key, of a secret key, of a signature, and of H(ζ', 96), in the order in which they stand.
#[derive(Clone, Copy)]
pub enum Part {
    PublicZeta,
    T1,
    SecretZeta,
    Ph,
    K,
    S1,
    S2,
    T0,
    Commitment,
    Z,
    Hints,
    Xi1,
    Xi2,
    NewK,
}

// The bytes of a field of coefficients, and of the hints.
fn field_size(p: Numbers, f: Field) -> usize
    requires { Good p }
    ensures { result ≡ size (layout_of p f) p.n }
{
    Layout::of(p, f).size(p.n)
}

fn hint_size(p: Numbers) -> usize
    requires { Good p }
    ensures { result ≡ size hint_layout p.n }
{
    Layout::hint().size(p.n)
}

impl Whole {
    // The lengths of its parts, in order, with 0 past the last: with no heap they share one array, and a slice of it would need one to lie in.
    fn lengths(self, p: Numbers) -> [usize; 6]
        requires { Good p }
        ensures { result ≡ lengths p self }
    {
        match self {
            Whole::PublicKey => [limits::SEED, field_size(p, Field::T1), 0, 0, 0, 0],
            Whole::SecretKey => [
                limits::SEED,
                limits::HASH,
                limits::SEED,
                field_size(p, Field::S1),
                field_size(p, Field::S2),
                field_size(p, Field::T0),
            ],
            Whole::Signature => [limits::HASH, field_size(p, Field::Z), hint_size(p), 0, 0, 0],
            Whole::Seeds => [limits::SEED, limits::SEED, limits::SEED, 0, 0, 0],
        }
    }

    // Its own length.
    pub fn size(self, p: Numbers) -> usize
        requires { Good p }
        ensures { result ≡ total (parts_in p self) }
    {
        self.lengths(p).iter().sum()
    }
}

impl Part {
    // The whole that it belongs to, and which of its parts it is.
    fn seat(self) -> (Whole, usize)
        ensures { result ≡ (whole_of self, rank self) }
    {
        match self {
            Part::PublicZeta => (Whole::PublicKey, 0),
            Part::T1 => (Whole::PublicKey, 1),
            Part::SecretZeta => (Whole::SecretKey, 0),
            Part::Ph => (Whole::SecretKey, 1),
            Part::K => (Whole::SecretKey, 2),
            Part::S1 => (Whole::SecretKey, 3),
            Part::S2 => (Whole::SecretKey, 4),
            Part::T0 => (Whole::SecretKey, 5),
            Part::Commitment => (Whole::Signature, 0),
            Part::Z => (Whole::Signature, 1),
            Part::Hints => (Whole::Signature, 2),
            Part::Xi1 => (Whole::Seeds, 0),
            Part::Xi2 => (Whole::Seeds, 1),
            Part::NewK => (Whole::Seeds, 2),
        }
    }

    // Where it stands: after the parts before it.
    pub fn span(self, p: Numbers) -> Span
        requires { Good p }
        ensures { (result.start ≡ start_in p self) × (result.end ≡ start_in p self + size_in p self) }
    {
        let (whole, rank) = self.seat();
        let lengths = whole.lengths(p);
        let start = lengths[..rank].iter().sum();
        Span {
            start,
            end: start + lengths[rank],
        }
    }

    // Its bytes in the whole.
    pub fn of(self, p: Numbers, whole: &[u8]) -> &[u8]
        requires { Good p × (length whole.now ≡ total (parts_of p self)) }
        ensures { result.now ≡ bytes_of p self whole.now }
    {
        &whole[self.span(p).range()]
    }

    // Bytes written there.
    pub fn put(self, p: Numbers, whole: &mut [u8], bytes: &[u8])
        requires { Good p × (length whole.old ≡ total (parts_of p self)) × (length bytes.now ≡ size_in p self) }
        ensures { whole.new ≡ put (start_in p self) bytes.now whole.old }
    {
        whole[self.span(p).range()].copy_from_slice(bytes);
    }
}
