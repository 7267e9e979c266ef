// Checking (SPEC 9) in one lent memory, for any trinomial set.
#![tactic(auto)]

ghost use Rattle.std.specs.Prelude.{◌≡◌, length};
ghost use Rattle.sets.specs.Set.{hash_size};
ghost use Rattle.sets.specs.Good.{Trinomial};
ghost use Rattle.answers.specs.Refusals.{report_of};
ghost use Rattle.answers.specs.Result.{answer_of, told};
ghost use Rattle.answers.specs.Inner.{Gives};
ghost use Rattle.shake.specs.Shake.{shake256};
ghost use Rattle.layouts.specs.Layouts.{w1_layout};
ghost use Rattle.packing.specs.Parts.{public_size, signature_size};
ghost use Rattle.scheme.specs.Try.{commit};
ghost use Rattle.scheme.specs.Check.{same, mu_for, check};
ghost use Rattle.workspace.specs.declared.Place.TheVariants as place;
ghost use Rattle.workspace.specs.Inner.{Room, Holds, Packable, values};
ghost use Rattle.checking.specs.Inner.{Inputs, inputs, highs_for, compared, Opens, Loaded};

use answers::{Buffer, Field, Refusal};
use packing::parts::{Part, Whole};
use sets::limits;
use sets::numbers::Numbers;
use workspace::Place;
use workspace::arithmetic::{Op, combine, multiply};
use workspace::drawing::{fill_a, fill_c};
use workspace::reading::{read_field, read_hints};

// t1, z, the hints, a and c, up to the first refusal (SPEC 9.1).
fn load(p: Numbers, public_key: &[u8], signature: &[u8], work: &mut [u32]) -> Result<(), Refusal>
    requires trinomial { Trinomial p × Room p work.old }
    requires public_key_len { (length public_key.now ≡ public_size p) × (length signature.now ≡ signature_size p) }
    ensures { Gives (inputs p shake256 public_key.now signature.now) (λ i. Opens p signature.now i × Loaded p i work.new) result }
{
    read_field(p, Field::T1, Part::T1, public_key, work, Place::T1)?;
    read_field(p, Field::Z, Part::Z, signature, work, Place::Z)?;
    read_hints(p, signature, work)?;
    fill_a(p, Part::PublicZeta.of(p, public_key), work)?;
    fill_c(p, Part::Commitment.of(p, signature), work)
}

// The high bits that the hints give (SPEC 9.3), where w1 stands.
fn recompute(p: Numbers, work: &mut [u32])
    requires trinomial { Trinomial p × Room p work.old }
    requires loaded { (i : Inputs) × Loaded p i work.old }
    ensures { (i : Inputs) → Loaded p i work.old → Holds p place.W1 (highs_for p i) work.new }
{
    multiply(p, work, Place::A, Place::Z, Place::Az);
    multiply(p, work, Place::C, Place::T1, Place::W1);
    combine(p, Op::LessScaled, work, Place::Az, Place::W1, Place::W1);
    combine(p, Op::Used, work, Place::Hints, Place::W1, Place::W1);
}

// The commitment that they lead to (SPEC 9.4), after μ (SPEC 9.2).
fn commit(p: Numbers, public_key: &[u8], message: &[u8], work: &[u32], out: &mut [u8])
    requires trinomial { Trinomial p × Room p work.now × Packable p (w1_layout p) place.W1 work.now }
    requires out_len { length out.old ≡ hash_size }
    ensures { out.new ≡ commit p shake256 (mu_for shake256 public_key.now message.now) (values p place.W1 work.now) }
{
    let mut ph = [0u8; limits::HASH];
    let mut mu = [0u8; limits::WIDE_HASH];
    shake::shake256(public_key, b"", b"", &mut ph);
    workspace::commitment::mu(&ph, message, &mut mu);
    workspace::commitment::commit(p, &mu, work, out);
}

// It is compared with c̃ (SPEC 9.4).
fn compare(
    p: Numbers,
    public_key: &[u8],
    signature: &[u8],
    message: &[u8],
    work: &mut [u32],
) -> Result<(), Refusal>
    requires trinomial { Trinomial p × Room p work.old }
    requires signature_len { (length signature.now ≡ signature_size p) × ((i : Inputs) × Loaded p i work.old) }
    ensures { (i : Inputs) → Opens p signature.now i → Loaded p i work.old → result ≡ answer_of (compared p shake256 public_key.now message.now i) }
{
    let mut expected = [0u8; limits::HASH];
    recompute(p, work);
    commit(p, public_key, message, work, &mut expected);
    // Both are public, so the comparison may end early.
    if Part::Commitment.of(p, signature) == expected.as_slice() {
        Ok(())
    } else {
        Err(Refusal::Differs)
    }
}

// The checks in the order of their numbers (SPEC 9.5). The lent memory is scratch.
pub fn check(
    p: Numbers,
    public_key: &[u8],
    signature: &[u8],
    message: &[u8],
    work: &mut [u32],
) -> Result<(), Refusal>
    requires { Trinomial p × Room p work.old }
    ensures { report_of result ≡ told (check p shake256 public_key.now signature.now message.now) }
{
    if public_key.len() != Whole::PublicKey.size(p) {
        return Err(Refusal::Length(Buffer::PublicKey));
    }
    if signature.len() != Whole::Signature.size(p) {
        return Err(Refusal::Length(Buffer::Signature));
    }
    if limits::MESSAGE_MAX < message.len() {
        return Err(Refusal::LongMessage);
    }
    load(p, public_key, signature, work)?;
    compare(p, public_key, signature, message, work)
}
