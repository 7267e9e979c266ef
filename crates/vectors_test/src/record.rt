// A record: a header of twelve 4-byte numbers, then bytes (second/VECTORS.md).
ghost use Rattle.std.specs.Prelude.{◌≤◌};

use answers::Report;
use std::fs::File;
use std::io::Read;

const HEADER: usize = 48;

// What a record asks for.
#[derive(Clone, Copy)]
pub(crate) enum Kind {
    End,
    MakeKeys,
    Sign,
    Check,
    Patch,
}

// A buffer that a patch changes.
#[derive(Clone, Copy)]
pub(crate) enum Buffer {
    PublicKey,
    SecretKey,
    Signature,
}

// A number that names no kind, or no buffer.
#[derive(Clone, Copy)]
pub(crate) struct UnknownNumber;

impl TryFrom<u32> for Kind {
    type Error = UnknownNumber;

    fn try_from(number: u32) -> Result<Self, UnknownNumber> {
        match number {
            0 => Ok(Kind::End),
            1 => Ok(Kind::MakeKeys),
            2 => Ok(Kind::Sign),
            3 => Ok(Kind::Check),
            4 => Ok(Kind::Patch),
            _ => Err(UnknownNumber),
        }
    }
}

impl TryFrom<usize> for Buffer {
    type Error = UnknownNumber;

    fn try_from(number: usize) -> Result<Self, UnknownNumber> {
        match number {
            1 => Ok(Buffer::PublicKey),
            2 => Ok(Buffer::SecretKey),
            5 => Ok(Buffer::Signature),
            _ => Err(UnknownNumber),
        }
    }
}

// The twelve numbers. What the four in the middle mean is the kind's.
#[derive(Clone, Copy)]
pub(crate) struct Header {
    pub(crate) kind: u32,
    pub(crate) told: Report,
    pub(crate) first: usize,
    pub(crate) second: usize,
    pub(crate) third: usize,
    pub(crate) fourth: usize,
    pub(crate) seed: u32,
    pub(crate) limit: u32,
    bytes: usize,
}

// The number that stands at a place of the header.
fn word(h: &[u8; HEADER], at: usize) -> u32
    requires { at ≤ 44 }
{
    u32::from_le_bytes([h[at], h[at + 1], h[at + 2], h[at + 3]])
}

// The same, as a length.
fn size(h: &[u8; HEADER], at: usize) -> usize
    requires { at ≤ 44 }
{
    word(h, at) as usize
}

impl From<&[u8; HEADER]> for Header {
    fn from(h: &[u8; HEADER]) -> Self {
        Header {
            kind: word(h, 0),
            told: Report {
                number: word(h, 4),
                place: word(h, 8),
                index: size(h, 12),
                tries: word(h, 16),
            },
            first: size(h, 20),
            second: size(h, 24),
            third: size(h, 28),
            fourth: size(h, 32),
            seed: word(h, 36),
            limit: word(h, 40),
            bytes: size(h, 44),
        }
    }
}

// Reads a record, if a whole one is left and its bytes fit `body`. They stand at its start.
pub(crate) fn read<'a>(file: &mut File, body: &'a mut [u8]) -> Option<(Header, &'a [u8])> {
    let mut h = [0u8; HEADER];
    file.read_exact(&mut h).ok()?;
    let header = Header::from(&h);
    let bytes = body.get_mut(..header.bytes)?;
    file.read_exact(bytes).ok()?;
    Some((header, bytes))
}
