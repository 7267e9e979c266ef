// Signing (SPEC 8) in one lent memory, for any trinomial set.
#![tactic(auto)]

ghost use Rattle.std.specs.Prelude.{◌≡◌, ◌++◌, ◌≤◌, length, OnOk};
ghost use Rattle.outcome.specs.Outcome.{Is};
ghost use Rattle.sets.specs.Set.{hash_size, wide_size, try_max};
ghost use Rattle.sets.specs.Good.{Trinomial};
ghost use Rattle.answers.specs.Refusals.{signing_report};
ghost use Rattle.answers.specs.Result.{answer_of};
ghost use Rattle.answers.specs.Inner.{Gives};
ghost use Rattle.shake.specs.Shake.{shake256};
ghost use Rattle.layouts.specs.Layouts.{z_layout, hint_layout};
ghost use Rattle.packing.specs.declared.parts.Part.TheVariants as part;
ghost use Rattle.packing.specs.Parts.{bytes_of, pack_signature, secret_size, signature_size};
ghost use Rattle.scheme.specs.Sign.{mu_of, read_key, sign_outcome, sign};
ghost use Rattle.workspace.specs.declared.Place.TheVariants as place;
ghost use Rattle.workspace.specs.Inner.{Room, Packable, values};
ghost use Rattle.signing.specs.Inner.{KeyHeld, checks};

use answers::{Buffer, Field, NotSigned, Refusal};
use layouts::layout::Layout;
use packing::parts::{Part, Whole};
use sets::limits;
use sets::numbers::Numbers;
use workspace::Place;
use workspace::drawing::fill_a;
use workspace::packed::put;
use workspace::reading::read_field;

// s1, s2 and t0 of the secret key, and then a of its ζ (SPEC 8.3).
fn read_key(p: Numbers, key: &[u8], work: &mut [u32]) -> Result<(), Refusal>
    requires trinomial { Trinomial p × Room p work.old }
    requires key_len { length key.now ≡ secret_size p }
    ensures { Gives (read_key p shake256 key.now) (λ k. KeyHeld p k work.new) result }
{
    read_field(p, Field::S1, Part::S1, key, work, Place::S1)?;
    read_field(p, Field::S2, Part::S2, key, work, Place::S2)?;
    read_field(p, Field::T0, Part::T0, key, work, Place::T0)?;
    fill_a(p, Part::SecretZeta.of(p, key), work)
}

// c̃, z and the hints (SPEC 6.9).
fn write_signature(p: Numbers, commitment: &[u8], work: &[u32], out: &mut [u8])
    requires trinomial { Trinomial p × Room p work.now }
    requires commitment_len { (length commitment.now ≡ hash_size) × (length out.old ≡ signature_size p) }
    requires packable { Packable p (z_layout p) place.Z work.now × Packable p hint_layout place.Hints work.now }
    ensures { out.new ≡ pack_signature p record { c~ = commitment.now; z = values p place.Z work.now; h = values p place.Hints work.now } }
{
    Part::Commitment.put(p, out, commitment);
    put(p, Layout::of(p, Field::Z), Part::Z, work, Place::Z, out);
    put(p, Layout::hint(), Part::Hints, work, Place::Hints, out);
}

// The checks in the order of their numbers (SPEC 8.9).
fn check_call(
    p: Numbers,
    key: &[u8],
    message: &[u8],
    limit: u32,
    signature: &[u8],
) -> Result<(), Refusal>
    requires { Trinomial p }
    ensures checked { result ≡ answer_of (checks p key.now message.now limit signature.now) }
    ensures passed { OnOk result ((length key.now ≡ secret_size p) × (length signature.now ≡ signature_size p) × (limit ≤ try_max)) }
{
    if key.len() != Whole::SecretKey.size(p) {
        return Err(Refusal::Length(Buffer::SecretKey));
    }
    if signature.len() != Whole::Signature.size(p) {
        return Err(Refusal::Length(Buffer::Signature));
    }
    if limits::MESSAGE_MAX < message.len() {
        return Err(Refusal::LongMessage);
    }
    if !(1..=limits::TRY_MAX).contains(&limit) {
        return Err(Refusal::TryLimit);
    }
    Ok(())
}

// μ (SPEC 8.1).
fn mu_of(p: Numbers, key: &[u8], message: &[u8]) -> [u8; limits::WIDE_HASH]
    requires { Trinomial p × (length key.now ≡ secret_size p) }
    ensures { result ≡ mu_of p shake256 key.now message.now }
{
    let mut mu = [0u8; limits::WIDE_HASH];
    workspace::commitment::mu(Part::Ph.of(p, key), message, &mut mu);
    mu
}

// ρ (SPEC 8.2).
fn rho_of(p: Numbers, key: &[u8], mu: &[u8]) -> [u8; limits::WIDE_HASH]
    requires { Trinomial p × (length key.now ≡ secret_size p) }
    ensures { result ≡ shake256 (bytes_of p part.K key.now ++ mu.now) wide_size }
{
    let mut rho = [0u8; limits::WIDE_HASH];
    shake::shake256(Part::K.of(p, key), mu, b"", &mut rho);
    rho
}

// A refusal leaves the signature as it was, since it is written last.
pub fn sign(
    p: Numbers,
    key: &[u8],
    message: &[u8],
    limit: u32,
    signature: &mut [u8],
    work: &mut [u32],
) -> Result<u32, NotSigned>
    requires { Trinomial p × Room p work.old }
    ensures { Is (sign_outcome limit (sign p shake256 key.now message.now limit signature.old) signature.old) (signing_report result) signature.new }
{
    check_call(p, key, message, limit, signature)?;
    let mu = mu_of(p, key, message);
    let rho = rho_of(p, key, &mu);
    read_key(p, key, work)?;
    let mut commitment = [0u8; limits::HASH];
    let found = tries::first_passing(p, &mu, &rho, limit, work, &mut commitment);
    let kappa = found.ok_or(NotSigned {
        why: Refusal::Spent,
        tries: limit,
    })?;
    write_signature(p, &commitment, work, signature);
    Ok(kappa + 1)
}
