// Between lent signed numbers and lent remainders.
ghost use Rattle.std.specs.Prelude.{◌≡◌, map, ℕ, ◌^◌, ◌<◌, length, get_or, pos};
ghost use Rattle.residues.specs.Remainder.{residue, signed};

// Every number reduced to 0..q-1.
pub fn reduce_all(q: u32, from: &[i32], to: &mut [u32])
    requires { (0 < q) × (length to.old ≡ length from.now) }
    ensures { to.new ≡ map (residue q) from.now }
{
    for (i, &x) in from.iter().enumerate() {
        to[i] = residues::reduce(q, x);
    }
}

// Every remainder as it stands.
pub fn store_plain(from: &[u32], to: &mut [i32])
    requires { ((k : ℕ) → get_or from.now k 0 < 2 ^ 31) × (length to.old ≡ length from.now) }
    ensures { to.new ≡ map pos from.now }
{
    for (i, &x) in from.iter().enumerate() {
        to[i] = x.cast_signed();
    }
}

// Every remainder centred by q.
pub fn store_centred(q: u32, from: &[u32], to: &mut [i32])
    requires { (q < 2 ^ 31) × ((k : ℕ) → get_or from.now k 0 < q) × (length to.old ≡ length from.now) }
    ensures { to.new ≡ map (signed q) from.now }
{
    for (i, &x) in from.iter().enumerate() {
        to[i] = residues::centre(q, x);
    }
}
