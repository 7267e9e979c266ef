// Key making, signing and checking against the second program's vectors: the file vectors.bin, as second/VECTORS.md says.
#![tactic(auto)]

mod bytes;
mod calls;
mod record;

use calls::Kept;
use record::{Header, Kind};
use std::fs::File;
use std::io;

// The most bytes of a record behind its header.
const BODY: usize = 4224;

// More records than the file has.
const MOST: u64 = 100000;

// How many records of each kind are right.
#[derive(Clone, Copy)]
struct Right {
    keys: u64,
    signing: u64,
    checking: u64,
    patches: u64,
}

// A line for a kind: how many are right, of how many.
fn total(rt: &impl Print, what: &str, right: u64, all: usize) -> io::Result<()> {
    println!(rt; "{what}: {right} of {all}")
}

impl Right {
    // One more of a kind. There are never as many as overflow.
    fn count(&mut self, kind: Kind) {
        let of_kind = match kind {
            Kind::End => return,
            Kind::MakeKeys => &mut self.keys,
            Kind::Sign => &mut self.signing,
            Kind::Check => &mut self.checking,
            Kind::Patch => &mut self.patches,
        };
        *of_kind = of_kind.saturating_add(1);
    }

    // The last record says how many there are of each kind.
    fn tell(&self, rt: &impl Print, h: &Header) -> io::Result<()> {
        total(rt, "key making", self.keys, h.first)?;
        total(rt, "signing", self.signing, h.second)?;
        total(rt, "checking", self.checking, h.third)?;
        total(rt, "patches", self.patches, h.fourth)
    }
}

fn main(rt: HostRuntime) -> io::Result<()> {
    let mut file = File::open(&rt, "vectors.bin")?;
    let mut body = [0u8; BODY];
    let mut kept = Kept::new();
    let mut right = Right {
        keys: 0,
        signing: 0,
        checking: 0,
        patches: 0,
    };
    for at in 0..MOST {
        let Some((h, bytes)) = record::read(&mut file, &mut body) else {
            break;
        };
        match Kind::try_from(h.kind) {
            Ok(Kind::End) => return right.tell(&rt, &h),
            Ok(kind) if kept.holds(kind, &h, bytes) => right.count(kind),
            _ => {
                let _ = println!(&rt; "FAIL: record {at}, kind {}", h.kind);
            }
        }
    }
    println!(&rt; "FAIL: the file has no last record")
}
