// Makes a key pair (SPEC 11.2): standard input is ζ and ζ'. Prints the refusal number and a newline and, at 0, the public key and the
// secret key.
#![tactic(auto)]

ghost use Rattle.outcome.specs.Outcome.{Is};
ghost use Rattle.answers.specs.Refusals.{report_of};
ghost use Rattle.answers.specs.Result.{outcome};
ghost use Rattle.ncc_make_keys.specs.Input.{keys_from};

use answers::{Refusal, Report};
use sets::limits::SEED;
use sets::set1::Set1;
use std::io;
use std::io::{Read, Write};

// One byte more than two seeds have, so that a longer input is seen.
const INPUT: usize = 2 * SEED + 1;

// Where the input is too short or too long, a seed has a wrong length, and key making refuses it.
fn made(input: &[u8], public: &mut [u8], secret: &mut [u8]) -> Result<(), Refusal>
    ensures { Is (outcome (keys_from input.now public.old secret.old) record { public = public.old; secret = secret.old }) (report_of result) record { public = public.new; secret = secret.new } }
{
    if input.len() < SEED {
        return set1::make_keys(input, b"", public, secret);
    }
    set1::make_keys(&input[..SEED], &input[SEED..], public, secret)
}

fn main(rt: HostRuntime) -> io::Result<()> {
    let mut input = [0u8; INPUT];
    let mut public = [0u8; Set1::PUBLIC_KEY];
    let mut secret = [0u8; Set1::SECRET_KEY];
    // No `From` leads between usize and u64, and INPUT is small.
    let got = io::copy(&mut rt.stdin().take(INPUT as u64), &mut &mut input[..])?;
    let report = Report::from(made(&input[..INPUT.min(got as usize)], &mut public, &mut secret));
    println!(rt; "{}", report.number)?;
    if report.number == 0 {
        rt.stdout().write_all(&public)?;
        rt.stdout().write_all(&secret)?;
    }
    Ok(())
}
