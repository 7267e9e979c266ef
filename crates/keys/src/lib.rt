// Key making (SPEC 7) in one lent memory, for any trinomial set.
#![tactic(auto)]

mod write;

ghost use Rattle.std.specs.Prelude.{◌≡◌, length};
ghost use Rattle.outcome.specs.Outcome.{Is};
ghost use Rattle.sets.specs.Set.{seed_size};
ghost use Rattle.sets.specs.Good.{Trinomial};
ghost use Rattle.answers.specs.Refusals.{report_of};
ghost use Rattle.answers.specs.Result.{outcome};
ghost use Rattle.answers.specs.Inner.{Gives};
ghost use Rattle.shake.specs.Shake.{shake256};
ghost use Rattle.packing.specs.Parts.{public_size, secret_size, seeds_size};
ghost use Rattle.scheme.specs.Keys.{pair_from, make_keys};
ghost use Rattle.workspace.specs.declared.Place.TheVariants as place;
ghost use Rattle.workspace.specs.Inner.{Room, Ready};
ghost use Rattle.keys.specs.Inner.{Drawn, drawn_from, Held, Rounded};

use answers::{Buffer, Refusal};
use packing::parts::{Part, Whole};
use sets::limits;
use sets::numbers::Numbers;
use workspace::Place;
use workspace::arithmetic::{Op, combine, multiply};
use workspace::drawing::{fill_a, fill_s};

// a from ζ, s1 from ξ1 and s2 from ξ2 (SPEC 7.2).
fn draw(p: Numbers, zeta: &[u8], seeds: &[u8], work: &mut [u32]) -> Result<(), Refusal>
    requires trinomial { Trinomial p × Room p work.old }
    requires seeds_len { length seeds.now ≡ seeds_size }
    ensures { Gives (drawn_from p zeta.now seeds.now) (λ d. Held p d work.new) result }
{
    fill_a(p, zeta, work)?;
    fill_s(p, Part::Xi1.of(p, seeds), work, Place::S1)?;
    fill_s(p, Part::Xi2.of(p, seeds), work, Place::S2)
}

// t = a·s1 + s2, and its two parts (SPEC 7.3). s1 stands first in the product, which passes over the zeros of its first factor.
fn round(p: Numbers, work: &mut [u32])
    requires { Trinomial p × Ready p place.S2 work.old }
    ensures { (d : Drawn) → Held p d work.old → Rounded p d work.new }
{
    multiply(p, work, Place::S1, Place::A, Place::T);
    combine(p, Op::Sum, work, Place::T, Place::S2, Place::T);
    combine(p, Op::PowerHigh, work, Place::T, Place::T, Place::T1);
    combine(p, Op::PowerLow, work, Place::T, Place::T, Place::T0);
}

// The keys, from ζ and the three seeds. A dry stream is found before a key is written.
fn make_in(
    p: Numbers,
    zeta: &[u8],
    seeds: &[u8],
    public_key: &mut [u8],
    secret_key: &mut [u8],
    work: &mut [u32],
) -> Result<(), Refusal>
    requires trinomial { Trinomial p × Room p work.old }
    requires zeta_len { (length zeta.now ≡ seed_size) × (length seeds.now ≡ seeds_size) }
    requires public_key_len { (length public_key.old ≡ public_size p) × (length secret_key.old ≡ secret_size p) }
    ensures { Is (outcome (pair_from p shake256 zeta.now seeds.now) record { public = public_key.old; secret = secret_key.old }) (report_of result) record { public = public_key.new; secret = secret_key.new } }
{
    draw(p, zeta, seeds, work)?;
    round(p, work);
    write::both(
        p,
        zeta,
        Part::NewK.of(p, seeds),
        work,
        public_key,
        secret_key,
    );
    Ok(())
}

// The two keys. A wrong length is refused in the order of the parameters, and a dry stream after that (SPEC 7.5).
// A refusal leaves both keys as they were, since they are written last.
pub fn make_keys(
    p: Numbers,
    zeta: &[u8],
    zeta_prime: &[u8],
    public_key: &mut [u8],
    secret_key: &mut [u8],
    work: &mut [u32],
) -> Result<(), Refusal>
    requires { Trinomial p × Room p work.old }
    ensures { Is (outcome (make_keys p shake256 zeta.now zeta_prime.now public_key.old secret_key.old) record { public = public_key.old; secret = secret_key.old }) (report_of result) record { public = public_key.new; secret = secret_key.new } }
{
    if zeta.len() != limits::SEED {
        return Err(Refusal::Length(Buffer::Zeta));
    }
    if zeta_prime.len() != limits::SEED {
        return Err(Refusal::Length(Buffer::ZetaPrime));
    }
    if public_key.len() != Whole::PublicKey.size(p) {
        return Err(Refusal::Length(Buffer::PublicKey));
    }
    if secret_key.len() != Whole::SecretKey.size(p) {
        return Err(Refusal::Length(Buffer::SecretKey));
    }
    let mut seeds = [0u8; limits::SEEDS];
    shake::shake256(zeta_prime, b"", b"", &mut seeds);
    make_in(p, zeta, &seeds, public_key, secret_key, work)
}
