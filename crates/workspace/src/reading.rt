// Places filled from packed bytes that nobody has checked (SPEC 6.5, 6.6).
ghost use Rattle.std.specs.Prelude.{◌≡◌, map, ℕ, ◌≤◌, pos, length, get_or};
ghost use Rattle.sets.specs.Good.{Good};
ghost use Rattle.answers.specs.declared.Refusal.{Refusal};
ghost use Rattle.packing.specs.declared.parts.Part.TheVariants as part;
ghost use Rattle.layouts.specs.Layouts.{layout_of, size, unpack};
ghost use Rattle.layouts.specs.Hints.{read_hints, ones};
ghost use Rattle.packing.specs.Parts.{total, parts_of, bytes_of, field_in, signature_size};
ghost use Rattle.layouts.specs.Inner.{Readable};
ghost use Rattle.packing.specs.Inner.{size_in};
ghost use Rattle.workspace.specs.declared.Place.TheVariants as place;
ghost use Rattle.workspace.specs.Inner.{slot, Room, Fills, answer_with};

use crate::Place;
use answers::{Field, Refusal};
use layouts::layout::Layout;
use layouts::unpack::BadCode;
use packing::parts::Part;
use sets::numbers::Numbers;

// Place k from packed bytes.
fn unpack(p: Numbers, l: Layout, packed: &[u8], work: &mut [u32], k: Place) -> Result<(), BadCode>
    requires good { Good p × Readable l p.q × Room p work.old }
    requires packed_len { length packed.now ≡ size l p.n }
    ensures { (f : ℕ → Refusal) → Fills p k (unpack l f p.n packed.now) work.old (answer_with f result) work.new }
{
    layouts::unpack::unpack(l, p.q, packed, &mut work[k.span(p).range()])
}

// Place k from a field of a key or a signature. A refusal names the field and the lowest index of a code that is not allowed.
pub fn read_field(
    p: Numbers,
    f: Field,
    part: Part,
    whole: &[u8],
    work: &mut [u32],
    k: Place,
) -> Result<(), Refusal>
    requires good { Good p × Room p work.old }
    requires whole_len { (length whole.now ≡ total (parts_of p part)) × (size_in p part ≡ size (layout_of p f) p.n) }
    ensures { Fills p k (field_in p f part whole.now) work.old result work.new }
{
    unpack(p, Layout::of(p, f), part.of(p, whole), work, k).map_err(|bad| Refusal::Coefficient(
        f, bad.index,
    ))
}

// How many of a place's bits are ones.
pub fn count_ones(p: Numbers, work: &[u32], k: Place) -> usize
    requires good { Good p × Room p work.now }
    requires by_index { (t : ℕ) → get_or (slot p k work.now) t 0 ≤ 1 }
    ensures { result ≡ ones (map pos (slot p k work.now)) }
{
    layouts::unpack::count_ones(&work[k.span(p).range()])
}

// The hints of a signature, at most ω of which are ones.
pub fn read_hints(p: Numbers, signature: &[u8], work: &mut [u32]) -> Result<(), Refusal>
    requires good { Good p × Room p work.old }
    requires signature_len { length signature.now ≡ signature_size p }
    ensures { Fills p place.Hints (read_hints p (bytes_of p part.Hints signature.now)) work.old result work.new }
{
    let packed = Part::Hints.of(p, signature);
    unpack(p, Layout::hint(), packed, work, Place::Hints).map_err(|_| Refusal::Hint)?;
    if p.omega < count_ones(p, work, Place::Hints) {
        return Err(Refusal::Hint);
    }
    Ok(())
}
