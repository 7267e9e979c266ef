// Checks a signature (SPEC 11.1): standard input is the public key, the signature and the message. Prints the refusal number and a
// newline.
#![tactic(auto)]

ghost use Rattle.std.specs.Prelude.{◌≡◌};
ghost use Rattle.answers.specs.Refusals.{report_of};
ghost use Rattle.ncc_check.specs.Input.{number_from};

use answers::{Buffer, Refusal, Report};
use sets::limits;
use sets::set1::Set1;
use std::io;
use std::io::Read;

// The key and the signature.
const HEAD: usize = Set1::PUBLIC_KEY + Set1::SIGNATURE;

// One byte more than the longest message needs, so that a longer one is seen.
const INPUT: usize = HEAD + limits::MESSAGE_MAX + 1;

// Where the input ends before the message, the key has a wrong length.
fn checked(input: &[u8]) -> Result<(), Refusal>
    ensures { (report_of result).number ≡ number_from input.now }
{
    if input.len() < HEAD {
        return Err(Refusal::Length(Buffer::PublicKey));
    }
    set1::check(
        &input[..Set1::PUBLIC_KEY],
        &input[Set1::PUBLIC_KEY..HEAD],
        &input[HEAD..],
    )
}

// The number of an input's answer, which `main` prints as it is.
fn number(input: &[u8]) -> u32
    ensures { result ≡ number_from input.now }
{
    Report::from(checked(input)).number
}

fn main(rt: HostRuntime) -> io::Result<()> {
    let mut input = [0u8; INPUT];
    // No `From` leads between usize and u64, and INPUT is small.
    let got = io::copy(&mut rt.stdin().take(INPUT as u64), &mut &mut input[..])?;
    println!(rt; "{}", number(&input[..INPUT.min(got as usize)]))
}
