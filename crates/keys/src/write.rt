// The keys, packed from the places of the memory (SPEC 6.7, 6.8).
ghost use Rattle.std.specs.Prelude.{◌≡◌, length};
ghost use Rattle.sets.specs.Set.{seed_size, hash_size};
ghost use Rattle.sets.specs.Good.{Trinomial};
ghost use Rattle.shake.specs.Shake.{shake256};
ghost use Rattle.layouts.specs.Layouts.{t1_layout, t0_layout, s_layout};
ghost use Rattle.packing.specs.Parts.{pack_public, pack_secret, public_size, secret_size};
ghost use Rattle.scheme.specs.Keys.{ph_of};
ghost use Rattle.workspace.specs.declared.Place.TheVariants as place;
ghost use Rattle.workspace.specs.Inner.{Room, Packable, values};

use answers::Field;
use layouts::layout::Layout;
use packing::parts::Part;
use sets::limits;
use sets::numbers::Numbers;
use workspace::Place;
use workspace::packed::put;

// ζ, t1.
fn public(p: Numbers, zeta: &[u8], work: &[u32], out: &mut [u8])
    requires trinomial { Trinomial p × Room p work.now }
    requires zeta_len { (length zeta.now ≡ seed_size) × (length out.old ≡ public_size p) }
    requires packable { Packable p (t1_layout p) place.T1 work.now }
    ensures { out.new ≡ pack_public p record { zeta = zeta.now; t1 = values p place.T1 work.now } }
{
    Part::PublicZeta.put(p, out, zeta);
    put(p, Layout::of(p, Field::T1), Part::T1, work, Place::T1, out);
}

// ζ, ph, K, s1, s2, t0.
fn secret(p: Numbers, zeta: &[u8], ph: &[u8], k: &[u8], work: &[u32], out: &mut [u8])
    requires trinomial { Trinomial p × Room p work.now }
    requires zeta_len { (length zeta.now ≡ seed_size) × (length ph.now ≡ hash_size) × (length k.now ≡ seed_size) × (length out.old ≡ secret_size p) }
    requires packable { Packable p (s_layout p) place.S1 work.now × Packable p (s_layout p) place.S2 work.now × Packable p (t0_layout p) place.T0 work.now }
    ensures { out.new ≡ pack_secret p record { zeta = zeta.now; ph = ph.now; k = k.now; s1 = values p place.S1 work.now; s2 = values p place.S2 work.now; t0 = values p place.T0 work.now } }
{
    Part::SecretZeta.put(p, out, zeta);
    Part::Ph.put(p, out, ph);
    Part::K.put(p, out, k);
    put(p, Layout::of(p, Field::S1), Part::S1, work, Place::S1, out);
    put(p, Layout::of(p, Field::S2), Part::S2, work, Place::S2, out);
    put(p, Layout::of(p, Field::T0), Part::T0, work, Place::T0, out);
}

// Both keys. ph is the hash of the public key (SPEC 7.4).
pub(crate) fn both(
    p: Numbers,
    zeta: &[u8],
    k: &[u8],
    work: &[u32],
    public_key: &mut [u8],
    secret_key: &mut [u8],
)
    requires trinomial { Trinomial p × Room p work.now }
    requires zeta_len { (length zeta.now ≡ seed_size) × (length k.now ≡ seed_size) }
    requires public_key_len { (length public_key.old ≡ public_size p) × (length secret_key.old ≡ secret_size p) }
    requires packable { Packable p (t1_layout p) place.T1 work.now × Packable p (s_layout p) place.S1 work.now × Packable p (s_layout p) place.S2 work.now × Packable p (t0_layout p) place.T0 work.now }
    ensures public_key_after { public_key.new ≡ pack_public p record { zeta = zeta.now; t1 = values p place.T1 work.now } }
    ensures secret_key_after { secret_key.new ≡ pack_secret p record { zeta = zeta.now; ph = ph_of shake256 public_key.new; k = k.now; s1 = values p place.S1 work.now; s2 = values p place.S2 work.now; t0 = values p place.T0 work.now } }
{
    public(p, zeta, work, public_key);
    let mut ph = [0u8; limits::HASH];
    shake::shake256(public_key, b"", b"", &mut ph);
    secret(p, zeta, &ph, k, work, secret_key);
}
