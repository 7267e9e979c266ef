// a (SPEC 5.2).
ghost use Rattle.std.specs.Prelude.{◌≡◌, ◌%◌, ◌^◌, length, take};
ghost use Rattle.outcome.specs.Outcome.{Is};
ghost use Rattle.sets.specs.Good.{Good};
ghost use Rattle.digits.specs.Digits.{value};
ghost use Rattle.sampling.specs.Inner.{drawn_a};

use crate::Dry;
use sets::numbers::Numbers;

// The low bits of the group that stands first, which are kept.
fn low_bits(p: Numbers, rest: &[u8]) -> u32
    requires { Good p }
    ensures { result ≡ value 256 (take p.abytes rest.now) % 2 ^ p.abits }
{
    (u64::from(digits::window(rest, 0)) % (1u64 << p.abits)) as u32
}

// One whole group after the other, and one below q goes to the next place. `chunks_exact` was tried: its parts have no room for a window of four
// bytes, and where the set is not known when this is compiled, a took five times as long, and s twice.
pub fn draw_a(p: Numbers, stream: &[u8], out: &mut [u32]) -> Result<(), Dry>
    requires good { Good p }
    requires out_len { length out.old ≡ p.n }
    ensures { Is (drawn_a p stream.now) result out.new }
{
    buffers::clear(out, 0);
    let mut found = 0;
    let mut rest = stream;
    while let Some(behind) = rest.get(p.abytes..) {
        let v = low_bits(p, rest);
        found = crate::keep(v < p.q, v, 0, out, found);
        if p.n <= found {
            return Ok(());
        }
        rest = behind;
    }
    Err(Dry)
}
