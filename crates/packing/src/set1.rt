// Packing and unpacking elements of set 1, over buffers that nobody has checked (SPEC 6.12).
ghost use Rattle.outcome.specs.Outcome.{Is};
ghost use Rattle.sets.specs.Set.{set1};
ghost use Rattle.answers.specs.Refusals.{report_of};
ghost use Rattle.answers.specs.Result.{outcome};
ghost use Rattle.packing.specs.Calls.{pack_call, unpack_call, pack_hints_call, unpack_hints_call};

use answers::{Buffer, Field, Refusal};
use layouts::layout::Layout;
use sets::set1::Set1;

// Codes are collected in an array of one's own, so that a refusal leaves `out` as it came.
#[tactic(auto, unfolding(crate::specs::Calls::pack_call))]
pub fn pack(f: Field, values: &[i32], out: &mut [u8]) -> Result<(), Refusal>
    ensures { Is (outcome (pack_call set1 f values.now out.old) out.old) (report_of result) out.new }
{
    let l = Layout::of(Set1::numbers(), f);
    if values.len() != Set1::N {
        return Err(Refusal::Length(Buffer::Coefficients));
    }
    if out.len() != l.size(Set1::N) {
        return Err(Refusal::Length(Buffer::Packed));
    }
    let mut codes = [0u32; Set1::N];
    let coded = layouts::pack::codes_of(l, values, &mut codes);
    coded.map_err(|bad| Refusal::Coefficient(f, bad.index))?;
    digits::pack_codes(&codes, l.bits, out);
    Ok(())
}

// Remainders are collected in the same way.
#[tactic(auto, unfolding(crate::specs::Calls::unpack_call))]
pub fn unpack(f: Field, packed: &[u8], out: &mut [i32]) -> Result<(), Refusal>
    ensures { Is (outcome (unpack_call set1 f packed.now out.old) out.old) (report_of result) out.new }
{
    let l = Layout::of(Set1::numbers(), f);
    if packed.len() != l.size(Set1::N) {
        return Err(Refusal::Length(Buffer::Packed));
    }
    if out.len() != Set1::N {
        return Err(Refusal::Length(Buffer::Coefficients));
    }
    let mut values = [0u32; Set1::N];
    let read = layouts::unpack::unpack(l, Set1::Q, packed, &mut values);
    read.map_err(|bad| Refusal::Coefficient(f, bad.index))?;
    buffers::convert::store_centred(Set1::Q, &values, out);
    Ok(())
}

// Hints: one bit each (SPEC 6.6).
#[tactic(auto, unfolding(crate::specs::Calls::pack_hints_call))]
pub fn pack_hints(values: &[i32], out: &mut [u8]) -> Result<(), Refusal>
    ensures { Is (outcome (pack_hints_call set1 values.now out.old) out.old) (report_of result) out.new }
{
    if values.len() != Set1::N {
        return Err(Refusal::Length(Buffer::Coefficients));
    }
    if out.len() != Set1::HINT_BYTES {
        return Err(Refusal::Length(Buffer::Packed));
    }
    let mut codes = [0u32; Set1::N];
    layouts::pack::codes_of(Layout::hint(), values, &mut codes).map_err(|_| Refusal::Hint)?;
    if Set1::OMEGA < layouts::unpack::count_ones(&codes) {
        return Err(Refusal::Hint);
    }
    digits::pack_codes(&codes, 1, out);
    Ok(())
}

#[tactic(auto, unfolding(crate::specs::Calls::unpack_hints_call))]
pub fn unpack_hints(packed: &[u8], out: &mut [i32]) -> Result<(), Refusal>
    ensures { Is (outcome (unpack_hints_call set1 packed.now out.old) out.old) (report_of result) out.new }
{
    if packed.len() != Set1::HINT_BYTES {
        return Err(Refusal::Length(Buffer::Packed));
    }
    if out.len() != Set1::N {
        return Err(Refusal::Length(Buffer::Coefficients));
    }
    let mut bits = [0u32; Set1::N];
    layouts::unpack::unpack(Layout::hint(), Set1::Q, packed, &mut bits).map_err(|_| Refusal::Hint)?;
    if Set1::OMEGA < layouts::unpack::count_ones(&bits) {
        return Err(Refusal::Hint);
    }
    buffers::convert::store_plain(&bits, out);
    Ok(())
}
