// Elements of remainders from the streams of SHAKE256 (SPEC 5). The stream is made in memory of the function's own, and drawn from there.
#![tactic(auto)]

ghost use Rattle.std.specs.Prelude.{◌≡◌, map, ◌^◌, ◌<◌, length};
ghost use Rattle.sets.specs.Good.{Good, Trinomial};
ghost use Rattle.answers.specs.Inner.{Gives};
ghost use Rattle.residues.specs.Remainder.{residue};
ghost use Rattle.shake.specs.Shake.{shake256};
ghost use Rattle.layouts.specs.Layouts.{y_layout, size};
ghost use Rattle.sampling.specs.Samplers.{drawn};
ghost use Rattle.streams.specs.Streams.{expand_a, expand_s, expand_y, expand_c};

use answers::Refusal;
use layouts::layout::Layout;
use sets::limits;
use sets::numbers::Numbers;

// a (SPEC 5.2).
pub fn expand_a(p: Numbers, zeta: &[u8], out: &mut [u32]) -> Result<(), Refusal>
    requires trinomial { Trinomial p }
    requires out_len { length out.old ≡ p.n }
    ensures { Gives (expand_a p shake256 zeta.now) (λ zs. out.new ≡ map (residue p.q) zs) result }
{
    let mut stream = [0u8; limits::STREAM];
    let stream = &mut stream[..p.astream];
    shake::shake256(zeta, &[0, 0], b"", stream);
    sampling::element::draw_a(p, stream, out)?;
    Ok(())
}

// s1 of ξ1, and s2 of ξ2 (SPEC 5.3). s is drawn signed, and then reduced.
pub fn expand_s(p: Numbers, xi: &[u8], out: &mut [u32]) -> Result<(), Refusal>
    requires trinomial { Trinomial p }
    requires out_len { length out.old ≡ p.n }
    ensures { Gives (expand_s p shake256 xi.now) (λ zs. out.new ≡ map (residue p.q) zs) result }
{
    let mut stream = [0u8; limits::STREAM];
    let stream = &mut stream[..p.sstream];
    shake::shake256(xi, b"", b"", stream);
    let mut s = [0i32; limits::CAPACITY];
    let s = &mut s[..p.n];
    sampling::small::draw_s(p, stream, s)?;
    buffers::convert::reduce_all(p.q, s, out);
    Ok(())
}

// The challenge of c̃ (SPEC 5.5), drawn signed, and then reduced. It differs from s in the sampler and the stream's length. One function over the
// sampler, `F: Fn`, would need its definition as a ghost value and clauses on `F.pre` and `F.post`, which is more than the lines that it saves.
pub fn expand_c(p: Numbers, commitment: &[u8], out: &mut [u32]) -> Result<(), Refusal>
    requires trinomial { Trinomial p }
    requires out_len { length out.old ≡ p.n }
    ensures { Gives (drawn (expand_c p shake256 commitment.now)) (λ zs. out.new ≡ map (residue p.q) zs) result }
{
    let mut stream = [0u8; limits::STREAM];
    let stream = &mut stream[..p.cstream];
    shake::shake256(commitment, b"", b"", stream);
    let mut c = [0i32; limits::CAPACITY];
    let c = &mut c[..p.n];
    sampling::challenge::draw_challenge(p, stream, c)?;
    buffers::convert::reduce_all(p.q, c, out);
    Ok(())
}

// y of try κ (SPEC 5.4).
pub fn expand_y(p: Numbers, rho: &[u8], kappa: u32, out: &mut [u32])
    requires trinomial { Trinomial p }
    requires out_len { (length out.old ≡ p.n) × (kappa < 2 ^ 16) }
    ensures { out.new ≡ map (residue p.q) (expand_y p shake256 rho.now kappa) }
{
    let mut stream = [0u8; limits::STREAM];
    let stream = &mut stream[..Layout::y(p).size(p.n)];
    shake::shake256(rho, &(kappa as u16).to_le_bytes(), b"", stream);
    // Every code of y is allowed.
    let _ = layouts::unpack::unpack(Layout::y(p), p.q, stream, out);
}
