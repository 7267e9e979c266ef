// Copies and fills of lent memory. Each takes every length.
#![tactic(auto)]

pub mod convert;

ghost use Rattle.std.specs.Prelude.{◌≡◌, length, replicate};
ghost use Rattle.buffers.specs.Buffers.{overlay};

// This and `clear` stay beside the library's `copy_from_slice` and `fill`: docs/CONTRACTS.md promises their theorems.
// As many items of src as dst has room for; the rest of dst is kept.
pub fn copy<T: Copy>(dst: &mut [T], src: &[T])
    ensures { dst.new ≡ overlay src.now dst.old }
{
    let n = dst.len().min(src.len());
    dst[..n].copy_from_slice(&src[..n]);
}

// One item throughout.
pub fn clear<T: Copy>(dst: &mut [T], zero: T)
    ensures { dst.new ≡ replicate (length dst.old) zero }
{
    // `fill` was tried: that no clone fails cannot be shown of a T of which only `Copy` is known.
    for x in dst.iter_mut() {
        *x = zero;
    }
}
