// Places packed into bytes (SPEC 6.1): of allowed values, each code is found from the remainder.
ghost use Rattle.std.specs.Prelude.{◌≡◌, true, map, ◌≤◌, ◌<◌, length};
ghost use Rattle.sets.specs.Set.{capacity};
ghost use Rattle.sets.specs.Good.{Trinomial};
ghost use Rattle.residues.specs.Remainder.{signed};
ghost use Rattle.layouts.specs.Layouts.{code, holds, size, pack};
ghost use Rattle.packing.specs.Parts.{total, parts_of};
ghost use Rattle.layouts.specs.Inner.{Readable};
ghost use Rattle.packing.specs.Inner.{size_in, start_in, put};
ghost use Rattle.workspace.specs.Inner.{Room, Packable, Codable, values};

use crate::Place;
use layouts::layout::Layout;
use packing::parts::Part;
use sets::limits;
use sets::numbers::Numbers;

// The code of a remainder whose centred value is allowed.
fn code_of(l: Layout, q: u32, x: u32) -> u32
    requires readable { Readable l q }
    requires x_lt_q { (x < q) × (holds l (signed q x) ≡ true) }
    ensures { result ≡ code l (signed q x) }
{
    if !l.down {
        return x;
    }
    if x <= l.base {
        l.base - x
    } else {
        l.base + q - x
    }
}

fn codes_of(l: Layout, q: u32, xs: &[u32], codes: &mut [u32])
    requires codable { Codable l q xs.now }
    requires codes_len { length codes.old ≡ length xs.now }
    ensures { codes.new ≡ map (code l) (map (signed q) xs.now) }
{
    for (i, &x) in xs.iter().enumerate() {
        codes[i] = code_of(l, q, x);
    }
}

fn pack_element(l: Layout, q: u32, xs: &[u32], out: &mut [u8])
    requires codable { Codable l q xs.now }
    requires len { (length xs.now ≤ capacity) × (length out.old ≡ size l (length xs.now)) }
    ensures { out.new ≡ pack l (length xs.now) (map (signed q) xs.now) }
{
    let mut codes = [0u32; limits::CAPACITY];
    let codes = &mut codes[..xs.len()];
    codes_of(l, q, xs, codes);
    digits::pack_codes(codes, l.bits, out);
}

// Place k, packed.
pub fn pack(p: Numbers, l: Layout, work: &[u32], k: Place, out: &mut [u8])
    requires trinomial { Trinomial p × Readable l p.q × Room p work.now }
    requires packable { Packable p l k work.now × (length out.old ≡ size l p.n) }
    ensures { out.new ≡ pack l p.n (values p k work.now) }
{
    pack_element(l, p.q, &work[k.span(p).range()], out);
}

// Place k, packed where a part of a key or a signature stands.
pub fn put(p: Numbers, l: Layout, part: Part, work: &[u32], k: Place, whole: &mut [u8])
    requires trinomial { Trinomial p × Readable l p.q × Room p work.now }
    requires packable { Packable p l k work.now × (length whole.old ≡ total (parts_of p part)) × (size_in p part ≡ size l p.n) }
    ensures { whole.new ≡ put (start_in p part) (pack l p.n (values p k work.now)) whole.old }
{
    pack(p, l, work, k, &mut whole[part.span(p).range()]);
}
