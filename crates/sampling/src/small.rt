// s (SPEC 5.3).
ghost use Rattle.std.specs.Prelude.{◌≡◌, pos, length, take};
ghost use Rattle.outcome.specs.Outcome.{Is};
ghost use Rattle.sets.specs.Good.{Good};
ghost use Rattle.digits.specs.Digits.{codes};
ghost use Rattle.sampling.specs.Inner.{Free, filled, is_s, means_s, drawn_s};

use crate::Dry;
use sets::numbers::Numbers;

// The codes of the group that stands first, of four bytes at most. A code up to 2η goes to the next place; from `first` on the buffer holds zeros.
fn draw_group(p: Numbers, group: &[u8], count: usize, out: &mut [i32], first: usize) -> usize
    requires good { Good p }
    requires out_len { length out.old ≡ p.n }
    requires free { Free (pos 0) first out.old }
    ensures { Is (filled (is_s p) (means_s p) (codes p.sbits count (take 4 group.now)) p.n first out.old) result out.new }
{
    let mut rest = digits::window(group, 0);
    let mut found = first;
    for _ in 0..count {
        if p.n <= found {
            return found;
        }
        let v = rest % (1u32 << p.sbits);
        let s = residues::difference(p.eta, v);
        found = crate::keep(v <= 2 * p.eta, s, 0, out, found);
        rest >>= p.sbits;
    }
    found
}

// One whole group of bytes after the other, so that the stream may have any length; as in a, and for the same reason no `chunks_exact`.
pub fn draw_s(p: Numbers, stream: &[u8], out: &mut [i32]) -> Result<(), Dry>
    requires good { Good p }
    requires out_len { length out.old ≡ p.n }
    ensures { Is (drawn_s p stream.now) result out.new }
{
    buffers::clear(out, 0);
    let count = 8 * p.sbytes / p.sbits;
    let mut found = 0;
    let mut rest = stream;
    while let Some(behind) = rest.get(p.sbytes..) {
        found = draw_group(p, rest, count, out, found);
        if p.n <= found {
            return Ok(());
        }
        rest = behind;
    }
    Err(Dry)
}
