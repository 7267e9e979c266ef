// SHAKE256 against expected outputs, which stand one after the other in the file shake.bin (tests/shake_vectors.py).
#![tactic(auto)]

ghost use Rattle.std.specs.Prelude.{◌≤◌, length};
ghost use Rattle.std.specs.List.{All};

use std::fs::File;
use std::io;
use std::io::Read;

// The lengths of messages and of outputs: none, around a lane, around one and two blocks, and many blocks.
const LENGTHS: [usize; 11] = [0, 1, 7, 8, 135, 136, 137, 271, 272, 273, 5000];

const MOST: usize = 5000;

// The ways in which a message is cut in three.
const WAYS: usize = 9;

// The message, the same as in tests/shake_vectors.py.
fn fill(m: &mut [u8]) {
    for (i, byte) in m.iter_mut().enumerate() {
        *byte = ((i % 256 * 7 + i / 256 % 256 + 3) % 256) as u8;
    }
}

// Whether the hash of the three parts, as long as `want`, is the next bytes of the file.
fn compare(file: &mut File, a: &[u8], b: &[u8], c: &[u8], out: &mut [u8], want: &mut [u8]) -> bool {
    shake::shake256(a, b, c, out);
    file.read_exact(want).is_ok() && *out == *want
}

// Whether `n` bytes of the hash of `m`, cut at `i` and `j`, are as expected. A case that fails is named. The runtime and the file are lent apart
// here and below: a struct of both would be one more name for two values that nothing ties.
fn case(rt: &impl Print, file: &mut File, m: &[u8], i: usize, j: usize, n: usize) -> bool
    requires cut { (i ≤ j) × (j ≤ length m.now) }
    requires fits { n ≤ MOST }
{
    let mut out = [0u8; MOST];
    let mut want = [0u8; MOST];
    let right = compare(
        file,
        &m[..i],
        &m[i..j],
        &m[j..],
        &mut out[..n],
        &mut want[..n],
    );
    if !right {
        let len = m.len();
        let _ = println!(rt;
            "FAIL: message of {len} bytes, output of {n} bytes, cut at {i} and {j}"
        );
    }
    right
}

// A message at every length of output, in one part.
fn outputs(rt: &impl Print, file: &mut File, m: &[u8]) -> u8
    ensures { result ≤ 11 }
{
    let mut right = 0;
    for &n in &LENGTHS {
        right += u8::from(case(rt, file, m, m.len(), m.len(), n));
    }
    right
}

// The first and the second cut of a message of `n` bytes, in each way.
fn cuts_of(n: usize) -> [(usize, usize); WAYS]
    ensures { All (λ c. (c.0 ≤ c.1) × (c.1 ≤ n)) result }
{
    [
        (n, n),
        (0, n),
        (0, 0),
        (n / 3, n / 3 + n / 2),
        (n.min(1), n.min(1)),
        (n.min(136), n.min(136)),
        (n.min(135), n.min(137)),
        (n / 2, n / 2),
        (n - n.min(1), n),
    ]
}

// A message cut in every way, at two hundred bytes of output.
fn cuts(rt: &impl Print, file: &mut File, m: &[u8]) -> u8
    ensures { result ≤ 9 }
{
    let mut right = 0;
    for &(i, j) in &cuts_of(m.len()) {
        right += u8::from(case(rt, file, m, i, j, 200));
    }
    right
}

// The cases that are right of messages of every length, which are the first bytes of `m`.
fn messages<F: FnMut(&[u8]) -> u8>(m: &[u8], mut cases: F) -> u64
    requires { F.IsAlwaysCallable cases }
{
    let mut right = 0;
    for &n in &LENGTHS {
        if let Some(message) = m.get(..n) {
            right += u64::from(cases(message));
        }
    }
    right
}

// The examples of FIPS 202: no message, and 200 bytes 0xa3, at 512 bytes of output.
fn examples(rt: &impl Print, file: &mut File) -> u64 {
    let m = [0xa3u8; 200];
    u64::from(case(rt, file, b"", 0, 0, 512)) + u64::from(case(rt, file, &m, 200, 200, 512))
}

// A line for a group of cases: how many are right, of how many.
fn total(rt: &impl Print, what: &str, right: u64, all: usize) -> io::Result<()> {
    println!(rt; "SHAKE256, {what}: {right} of {all}")
}

fn main(rt: HostRuntime) -> io::Result<()> {
    let mut file = File::open(&rt, "shake.bin")?;
    let mut m = [0u8; MOST];
    fill(&mut m);
    let right = examples(&rt, &mut file);
    total(&rt, "examples of FIPS 202", right, 2)?;
    let right = messages(&m, |message| outputs(&rt, &mut file, message));
    total(
        &rt,
        "message and output lengths",
        right,
        LENGTHS.len() * LENGTHS.len(),
    )?;
    let right = messages(&m, |message| cuts(&rt, &mut file, message));
    total(&rt, "messages in parts", right, LENGTHS.len() * WAYS)
}
