// Signs (SPEC 11.3): standard input is the secret key, the try limit in 4 bytes, little-endian, and the message. Prints the refusal
// number, the count of tries and a newline and, at 0, the signature.
#![tactic(auto)]

ghost use Rattle.outcome.specs.Outcome.{Is};
ghost use Rattle.answers.specs.Refusals.{signing_report};
ghost use Rattle.scheme.specs.Sign.{sign_outcome};
ghost use Rattle.ncc_sign.specs.Input.{limit_in, signature_from};

use answers::{Buffer, NotSigned, Refusal, Report};
use sets::limits;
use sets::set1::Set1;
use std::io;
use std::io::{Read, Write};

// The key and the limit.
const HEAD: usize = Set1::SECRET_KEY + 4;

// One byte more than the longest message needs, so that a longer one is seen.
const INPUT: usize = HEAD + limits::MESSAGE_MAX + 1;

// Signs the message of an input.
fn signed(input: &[u8], signature: &mut [u8]) -> Result<u32, NotSigned>
    ensures { Is (sign_outcome (limit_in input.now) (signature_from input.now signature.old) signature.old) (signing_report result) signature.new }
{
    if input.len() < HEAD {
        return Err(NotSigned::from(Refusal::Length(Buffer::SecretKey)));
    }
    let limit = digits::window(input, Set1::SECRET_KEY);
    set1::sign(&input[..Set1::SECRET_KEY], &input[HEAD..], limit, signature)
}

fn main(rt: HostRuntime) -> io::Result<()> {
    let mut input = [0u8; INPUT];
    let mut signature = [0u8; Set1::SIGNATURE];
    // No `From` leads between usize and u64, and INPUT is small.
    let got = io::copy(&mut rt.stdin().take(INPUT as u64), &mut &mut input[..])?;
    let report = Report::from(signed(&input[..INPUT.min(got as usize)], &mut signature));
    println!(rt; "{} {}", report.number, report.tries)?;
    if report.number == 0 {
        rt.stdout().write_all(&signature)?;
    }
    Ok(())
}
