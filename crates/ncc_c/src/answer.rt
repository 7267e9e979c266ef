// An answer as one number: number + 2^8 · place + 2^16 · index + 2^32 · tries.
ghost use Rattle.std.specs.Prelude.{◌≡◌, ◌<◌};
ghost use Rattle.answers.specs.Refusals.{report_of, signing_report};
ghost use Rattle.ncc_c.specs.Answer.{encoded, Fits};

use answers::{NotSigned, Refusal, Report};

// Each part is below its place's end, so that no part reaches into another.
fn encode(r: Report) -> u64
    requires { Fits r }
    ensures { result ≡ encoded r }
{
    u64::from(r.number)
        + 0x100 * u64::from(r.place)
        + 0x10000 * (r.index as u64)
        + 0x100000000 * u64::from(r.tries)
}

// Numbers and places are small whatever the answer is; that of an index is known from the call.
pub(crate) fn answer(a: Result<(), Refusal>) -> u64
    requires { (report_of a).index < 65536 }
    ensures { result ≡ encoded (report_of a) }
{
    encode(Report::from(a))
}

// The answer of signing, with its count of tries. One function for both, over the type that a report is made from, would say what it asks by the
// contract of that conversion, and less plainly.
pub(crate) fn signed(s: Result<u32, NotSigned>) -> u64
    requires { (signing_report s).index < 65536 }
    ensures { result ≡ encoded (signing_report s) }
{
    encode(Report::from(s))
}
