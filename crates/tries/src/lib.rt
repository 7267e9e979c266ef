// The tries of signing (SPEC 8.4 to 8.8).
#![tactic(auto)]

ghost use Rattle.std.specs.Prelude.{◌≡◌, List, [], ℕ, ◌^◌, ◌≤◌, ◌<◌, ℤ, length};
ghost use Rattle.sets.specs.Set.{hash_size, try_max};
ghost use Rattle.sets.specs.Good.{Good, Trinomial};
ghost use Rattle.shake.specs.Shake.{shake256};
ghost use Rattle.scheme.specs.Elements.{highs};
ghost use Rattle.scheme.specs.Try.{Signer, commit};
ghost use Rattle.workspace.specs.declared.Place.TheVariants as place;
ghost use Rattle.workspace.specs.Inner.{slot, Room, Touched, Holds, Ready};
ghost use Rattle.tries.specs.Inner.{signer_in, Through, Found};

use sets::numbers::Numbers;
use workspace::Place;
use workspace::arithmetic::{Op, combine, multiply};
use workspace::commitment::commit;
use workspace::drawing::{fill_c, fill_y};
use workspace::reading::count_ones;

// y and w = a·y of try κ.
fn mask(p: Numbers, rho: &[u8], kappa: u32, work: &mut [u32])
    requires trinomial { Trinomial p × Ready p place.T0 work.old }
    requires kappa_bound { kappa < 2 ^ 16 }
    ensures through { (S : Signer) → S.rho ≡ rho.now → Through p S kappa [] place.T0 work.old → Through p S kappa [] place.W work.new }
    ensures work_len_unchanged { length work.new ≡ length work.old }
{
    fill_y(p, rho, kappa, work);
    multiply(p, work, Place::A, Place::Y, Place::W);
}

// w1, and c̃ of it.
fn commit_to(p: Numbers, mu: &[u8], work: &mut [u32], commitment: &mut [u8])
    requires trinomial { Trinomial p × Ready p place.W work.old }
    requires commitment_len { length commitment.old ≡ hash_size }
    ensures touched { Touched p place.W1 work.old work.new }
    ensures commitment_after { (w : List ℤ) → Holds p place.W w work.old → commitment.new ≡ commit p shake256 mu.now (highs p w) }
{
    combine(p, Op::High, work, Place::W, Place::W, Place::W1);
    commit(p, mu, work, commitment);
}

// z = y + c·s1.
fn respond(p: Numbers, work: &mut [u32])
    requires { Trinomial p × Ready p place.C work.old }
    ensures through { (S : Signer) (κ : ℕ) (c : List ℤ) → Through p S κ c place.C work.old → Through p S κ c place.Z work.new }
    ensures work_len_unchanged { length work.new ≡ length work.old }
{
    multiply(p, work, Place::C, Place::S1, Place::Z);
    combine(p, Op::Sum, work, Place::Y, Place::Z, Place::Z);
}

// w - c·s2.
fn rest(p: Numbers, work: &mut [u32])
    requires { Trinomial p × Ready p place.Z work.old }
    ensures through { (S : Signer) (κ : ℕ) (c : List ℤ) → Through p S κ c place.Z work.old → Through p S κ c place.Rest work.new }
    ensures work_len_unchanged { length work.new ≡ length work.old }
{
    multiply(p, work, Place::C, Place::S2, Place::Rest);
    combine(p, Op::Difference, work, Place::W, Place::Rest, Place::Rest);
}

// What a place holds.
fn slot(p: Numbers, work: &[u32], k: Place) -> &[u32]
    requires { Good p × Room p work.now }
    ensures { result.now ≡ slot p k work.now }
{
    &work[k.span(p).range()]
}

// The tries from κ = 0 on. A try fails for the first of the five reasons that holds (SPEC 8.7); the first that passes is the answer, and no later one
// is looked at (SPEC 8.8). None says that every try failed.
// The loop counts κ by hand, since it yields its answer by `break`, which a `for` over the tries cannot; and the three tests of a norm stand one by
// one, each left by label from a loop of its own: docs/FORMS.md promises both.
pub fn first_passing(
    p: Numbers,
    mu: &[u8],
    rho: &[u8],
    limit: u32,
    work: &mut [u32],
    commitment: &mut [u8],
) -> Option<u32>
    requires trinomial { Trinomial p × Ready p place.T0 work.old }
    requires limit_le_try_max { (limit ≤ try_max) × (length commitment.old ≡ hash_size) }
    ensures { Found p (signer_in p work.old mu.now rho.now) limit result work.new commitment.new }
{
    let mut next: u32 = 0;
    'tries: loop {
        if limit <= next {
            break 'tries None;
        }
        let kappa = next;
        next += 1;
        mask(p, rho, kappa, work);
        commit_to(p, mu, work, commitment);
        // Reason 1: the challenge is dry.
        if fill_c(p, commitment, work).is_err() {
            continue 'tries;
        }
        // Reason 2: the norm of z is at least γ1 - β.
        respond(p, work);
        for &z in slot(p, work, Place::Z) {
            if p.gamma1 - p.beta <= residues::magnitude(p.q, z) {
                continue 'tries;
            }
        }
        // Reason 3: the norm of the low bits of w - c·s2 is at least γ2 - β.
        rest(p, work);
        for &low in slot(p, work, Place::Rest) {
            if p.gamma2 - p.beta <= rounding::low_of(p, low) {
                continue 'tries;
            }
        }
        // Reason 4: the norm of c·t0 is at least γ2.
        multiply(p, work, Place::C, Place::T0, Place::Ct0);
        for &ct0 in slot(p, work, Place::Ct0) {
            if p.gamma2 <= residues::magnitude(p.q, ct0) {
                continue 'tries;
            }
        }
        // Reason 5: the hint has more than ω ones.
        combine(p, Op::Hint, work, Place::Rest, Place::Ct0, Place::Hints);
        if p.omega < count_ones(p, work, Place::Hints) {
            continue 'tries;
        }
        break 'tries Some(kappa);
    }
}
