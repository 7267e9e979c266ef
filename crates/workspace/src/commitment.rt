// μ and c̃: what is hashed between a message and its challenge.
ghost use Rattle.std.specs.Prelude.{◌≡◌, length};
ghost use Rattle.sets.specs.Set.{hash_size, wide_size};
ghost use Rattle.sets.specs.Good.{Trinomial};
ghost use Rattle.shake.specs.Shake.{shake256};
ghost use Rattle.layouts.specs.Layouts.{w1_layout};
ghost use Rattle.scheme.specs.Try.{commit};
ghost use Rattle.scheme.specs.Sign.{mu};
ghost use Rattle.workspace.specs.declared.Place.TheVariants as place;
ghost use Rattle.workspace.specs.Inner.{Room, Packable, values};

use crate::Place;
use crate::packed::pack;
use answers::Field;
use layouts::layout::Layout;
use sets::limits;
use sets::numbers::Numbers;

// μ of ph and a message, which is read where it lies (SPEC 8.1).
pub fn mu(ph: &[u8], message: &[u8], out: &mut [u8])
    requires { length out.old ≡ wide_size }
    ensures { out.new ≡ mu shake256 ph.now message.now }
{
    shake::shake256(ph, message, b"", out);
}

// c̃ of μ and of the w1 that stands at its place (SPEC 8.4).
pub fn commit(p: Numbers, mu: &[u8], work: &[u32], out: &mut [u8])
    requires trinomial { Trinomial p × Room p work.now × Packable p (w1_layout p) place.W1 work.now }
    requires out_len { length out.old ≡ hash_size }
    ensures { out.new ≡ commit p shake256 mu.now (values p place.W1 work.now) }
{
    let l = Layout::of(p, Field::W1);
    let mut packed = [0u8; limits::PACKED_W1];
    let packed = &mut packed[..l.size(p.n)];
    pack(p, l, work, Place::W1, packed);
    shake::shake256(mu, packed, b"", out);
}
