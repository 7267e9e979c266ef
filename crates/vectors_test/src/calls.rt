// A record's call, and whether its answer and its outputs are as expected. What is kept changes as the record says.
use crate::bytes::{FRESH, agree, copy, message, patch, untouched};
use crate::record::{Buffer, Header, Kind};
use answers::Report;
use sets::limits::{MESSAGE_MAX, SEED};
use sets::set1::Set1;

// A buffer may be lent 8 bytes longer than it has to be.
const MORE: usize = 8;

const SEED_ROOM: usize = SEED + MORE;

const PUBLIC_ROOM: usize = Set1::PUBLIC_KEY + MORE;

const SECRET_ROOM: usize = Set1::SECRET_KEY + MORE;

const SIGNATURE_ROOM: usize = Set1::SIGNATURE + MORE;

const MESSAGE_ROOM: usize = MESSAGE_MAX + MORE;

// What is kept from record to record, and room for a message.
#[derive(Drop)]
pub(crate) struct Kept {
    public: [u8; PUBLIC_ROOM],
    secret: [u8; SECRET_ROOM],
    signature: [u8; SIGNATURE_ROOM],
    message: [u8; MESSAGE_ROOM],
}

// A seed at the start of a buffer of zeros.
fn roomy(seed: &[u8]) -> [u8; SEED_ROOM] {
    let mut room = [0u8; SEED_ROOM];
    copy(seed, &mut room);
    room
}

impl Kept {
    pub(crate) fn new() -> Self {
        Kept {
            public: [0; PUBLIC_ROOM],
            secret: [0; SECRET_ROOM],
            signature: [0; SIGNATURE_ROOM],
            message: [0; MESSAGE_ROOM],
        }
    }

    // Whether a record is as expected.
    pub(crate) fn holds(&mut self, kind: Kind, h: &Header, body: &[u8]) -> bool {
        match kind {
            Kind::End => true,
            Kind::MakeKeys => self.makes_keys(h, body).unwrap_or(false),
            Kind::Sign => self.signs(h, body).unwrap_or(false),
            Kind::Check => self.checks(h).unwrap_or(false),
            Kind::Patch => self.patches(h, body).is_some(),
        }
    }

    // None where the record asks for more than there is.
    fn makes_keys(&mut self, h: &Header, body: &[u8]) -> Option<bool> {
        let (seeds, expected) = body.split_at_checked(2 * SEED)?;
        let (zeta, prime) = seeds.split_at(SEED);
        let zeta_room = roomy(zeta);
        let prime_room = roomy(prime);
        let mut public_room = [FRESH; PUBLIC_ROOM];
        let mut secret_room = [FRESH; SECRET_ROOM];
        let public = public_room.get_mut(..h.third)?;
        let secret = secret_room.get_mut(..h.fourth)?;
        let told = Report::from(set1::make_keys(
            zeta_room.get(..h.first)?,
            prime_room.get(..h.second)?,
            public,
            secret,
        ));
        if told != h.told {
            return Some(false);
        }
        if told.number != 0 {
            return Some(untouched(public) && untouched(secret));
        }
        if !agree(expected, public, secret) {
            return Some(false);
        }
        copy(public, &mut self.public);
        copy(secret, &mut self.secret);
        Some(true)
    }

    fn signs(&mut self, h: &Header, expected: &[u8]) -> Option<bool> {
        let mut room = [FRESH; SIGNATURE_ROOM];
        let out = room.get_mut(..h.third)?;
        let m = self.message.get_mut(..h.second)?;
        message(h.seed, m);
        let key = self.secret.get(..h.first)?;
        let told = Report::from(set1::sign(key, m, h.limit, out));
        if told != h.told {
            return Some(false);
        }
        if told.number != 0 {
            return Some(untouched(out));
        }
        if !agree(expected, out, b"") {
            return Some(false);
        }
        copy(out, &mut self.signature);
        Some(true)
    }

    fn checks(&mut self, h: &Header) -> Option<bool> {
        let m = self.message.get_mut(..h.third)?;
        message(h.seed, m);
        let key = self.public.get(..h.first)?;
        let signature = self.signature.get(..h.second)?;
        let told = Report::from(set1::check(key, signature, m));
        Some(told == h.told)
    }

    // Patches the buffer that the record names.
    fn patches(&mut self, h: &Header, bytes: &[u8]) -> Option<()> {
        match Buffer::try_from(h.first).ok()? {
            Buffer::PublicKey => patch_from(h.second, bytes, &mut self.public),
            Buffer::SecretKey => patch_from(h.second, bytes, &mut self.secret),
            Buffer::Signature => patch_from(h.second, bytes, &mut self.signature),
        }
    }
}

// Patches a buffer from a position on.
fn patch_from(at: usize, bytes: &[u8], whole: &mut [u8]) -> Option<()> {
    patch(bytes, whole.get_mut(at..)?);
    Some(())
}
