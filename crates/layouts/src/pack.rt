// The codes of signed numbers that nobody has checked.
ghost use Rattle.std.specs.Prelude.{◌≡◌, length};
ghost use Rattle.outcome.specs.Outcome.{Is};
ghost use Rattle.layouts.specs.Layouts.{written, code, holds};
ghost use Rattle.layouts.specs.Inner.{taken, taken_to};

use crate::layout::Layout;
use crate::unpack::BadCode;

// The value or base - value, in 64 bits, so that no value is too large.
fn written(l: Layout, value: i32) -> i64
    ensures { result ≡ written l value }
{
    let value = i64::from(value);
    if l.down {
        i64::from(l.base) - value
    } else {
        value
    }
}

// The code of a value, where it is allowed.
fn code_of(l: Layout, value: i32) -> Option<u32>
    ensures { result ≡ taken (holds l) (code l) value }
{
    u32::try_from(written(l, value))
        .ok()
        .filter(|code| (l.least..=l.most).contains(code))
}

// The codes of all values, or the lowest index of one that is not allowed.
pub fn codes_of(l: Layout, values: &[i32], out: &mut [u32]) -> Result<(), BadCode>
    requires { length out.old ≡ length values.now }
    ensures { Is (taken_to (holds l) (code l) values.now out.old) result out.new }
{
    for (i, &value) in values.iter().enumerate() {
        let Some(code) = code_of(l, value) else {
            return Err(BadCode { index: i });
        };
        out[i] = code;
    }
    Ok(())
}
