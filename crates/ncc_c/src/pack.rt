// Packing and unpacking: a function for each name of the C interface.
ghost use Rattle.outcome.specs.Outcome.{Is};
ghost use Rattle.sets.specs.Set.{set1};
ghost use Rattle.answers.specs.Result.{outcome};
ghost use Rattle.packing.specs.Calls.{pack_call, unpack_call};
ghost use Rattle.ncc_c.specs.Answer.{coded};

use answers::Field;

#[unsafe(no_mangle)]
pub extern "C" fn ncc_pack_t1(values: &[i32], out: &mut [u8]) -> u64
    ensures { Is (coded (outcome (pack_call set1 Field.T1 values.now out.old) out.old)) result out.new }
{
    crate::answer::answer(packing::set1::pack(Field::T1, values, out))
}

#[unsafe(no_mangle)]
pub extern "C" fn ncc_unpack_t1(packed: &[u8], out: &mut [i32]) -> u64
    ensures { Is (coded (outcome (unpack_call set1 Field.T1 packed.now out.old) out.old)) result out.new }
{
    crate::answer::answer(packing::set1::unpack(Field::T1, packed, out))
}

#[unsafe(no_mangle)]
pub extern "C" fn ncc_pack_t0(values: &[i32], out: &mut [u8]) -> u64
    ensures { Is (coded (outcome (pack_call set1 Field.T0 values.now out.old) out.old)) result out.new }
{
    crate::answer::answer(packing::set1::pack(Field::T0, values, out))
}

#[unsafe(no_mangle)]
pub extern "C" fn ncc_unpack_t0(packed: &[u8], out: &mut [i32]) -> u64
    ensures { Is (coded (outcome (unpack_call set1 Field.T0 packed.now out.old) out.old)) result out.new }
{
    crate::answer::answer(packing::set1::unpack(Field::T0, packed, out))
}

#[unsafe(no_mangle)]
pub extern "C" fn ncc_pack_s(values: &[i32], out: &mut [u8]) -> u64
    ensures { Is (coded (outcome (pack_call set1 Field.S values.now out.old) out.old)) result out.new }
{
    crate::answer::answer(packing::set1::pack(Field::S, values, out))
}

#[unsafe(no_mangle)]
pub extern "C" fn ncc_unpack_s(packed: &[u8], out: &mut [i32]) -> u64
    ensures { Is (coded (outcome (unpack_call set1 Field.S packed.now out.old) out.old)) result out.new }
{
    crate::answer::answer(packing::set1::unpack(Field::S, packed, out))
}

#[unsafe(no_mangle)]
pub extern "C" fn ncc_pack_z(values: &[i32], out: &mut [u8]) -> u64
    ensures { Is (coded (outcome (pack_call set1 Field.Z values.now out.old) out.old)) result out.new }
{
    crate::answer::answer(packing::set1::pack(Field::Z, values, out))
}

#[unsafe(no_mangle)]
pub extern "C" fn ncc_unpack_z(packed: &[u8], out: &mut [i32]) -> u64
    ensures { Is (coded (outcome (unpack_call set1 Field.Z packed.now out.old) out.old)) result out.new }
{
    crate::answer::answer(packing::set1::unpack(Field::Z, packed, out))
}

#[unsafe(no_mangle)]
pub extern "C" fn ncc_pack_w1(values: &[i32], out: &mut [u8]) -> u64
    ensures { Is (coded (outcome (pack_call set1 Field.W1 values.now out.old) out.old)) result out.new }
{
    crate::answer::answer(packing::set1::pack(Field::W1, values, out))
}

#[unsafe(no_mangle)]
pub extern "C" fn ncc_unpack_w1(packed: &[u8], out: &mut [i32]) -> u64
    ensures { Is (coded (outcome (unpack_call set1 Field.W1 packed.now out.old) out.old)) result out.new }
{
    crate::answer::answer(packing::set1::unpack(Field::W1, packed, out))
}
