// The product in a trinomial ring (SPEC 2.2, 2.3): the plain engine, over remainders, for any set.
#![tactic(auto)]

pub mod set1;

ghost use Rattle.std.specs.Prelude.{◌≡◌, ◌+◌, ◌-◌, ◌*◌, ◌^◌, ◌/◌, ◌%◌, ◌<◌, ◌≤◌, length, get_or, set, All};
ghost use Rattle.sets.specs.Good.{Trinomial};
ghost use Rattle.ring.specs.Inner.{multiplied, Residues, Padded, Room, row_of, pass, Near, Summed, Passed, Unsummed, Unfolded, Foldable, Folded, FoldedAll};

use residues::divide::{modulo, wrap};
use sets::limits;
use sets::numbers::Numbers;

// Coefficient i, and 0 past the end.
fn coefficient(a: &[u32], i: usize) -> u32
    ensures { result ≡ get_or a.now i 0 }
{
    a.get(i).copied().unwrap_or(0)
}

// How far the rows of one pass may lie apart. As many zeros stand before the padded factor and behind it.
const REACH: usize = 15;

// b between zeros, so that each row of a pass meets it at every place. A number takes a word, as its products do.
fn pad(b: &[u32], out: &mut [u64])
    requires { length out.old ≡ length b.now + 30 }
    ensures { Padded b.now out.new }
{
    out.fill(0);
    for (k, &x) in b.iter().enumerate() {
        out[k + REACH] = u64::from(x);
    }
}

// The whole product of two numbers. That b takes 32 bits lets the compiler multiply by them alone.
fn times(a: u32, b: u64) -> u64
    requires { b < 2 ^ 32 }
    ensures { result ≡ a * b }
{
    u64::from(a) * u64::from(b as u32)
}

// A row of a pass: the padded b times a number of a. The row meets the padded b from place `meets` on, which is 15 where
// the pass begins, and as many places less as the row begins further on.
#[derive(Clone, Copy)]
struct Row {
    factor: u32,
    meets: usize,
}

impl Row {
    // The row of a's coefficient at `place`, in a pass that begins 15 places before `end`.
    fn of(a: &[u32], place: usize, end: usize) -> Row
        requires { place ≤ end }
        ensures { result ≡ row_of a.now place end }
    {
        Row {
            factor: coefficient(a, place),
            meets: end - place,
        }
    }
}

// Adds rows in one pass that begins at X^i. No product is reduced by itself.
fn add_rows<const R: usize>(sums: &mut [u64], b: &[u64], i: usize, rows: [Row; R])
    requires room { Room sums.old b.now i }
    requires near { (R ≤ 4) × All Near rows }
    ensures { Summed sums.old i (pass b.now rows.entry) sums.new }
{
    for k in 0..b.len() - REACH {
        let mut more = 0;
        for row in rows {
            more += times(row.factor, b[k + row.meets]);
        }
        sums[i + k] += more;
    }
}

// The next place from `from` on whose coefficient is not 0, or `top`.
fn past_zeros(a: &[u32], from: usize, top: usize) -> usize
    requires { from ≤ top }
    ensures { Passed a.now from top result }
{
    (from..top)
        .find(|&at| coefficient(a, at) != 0)
        .unwrap_or(top)
}

// The coefficients of a·b before exponents are folded. A zero of a costs nothing: rows are gathered four to a pass where four lie close, as
// in s1, and a row that stands alone, as in a challenge, is added alone.
fn rows(a: &[u32], b: &[u64], sums: &mut [u64])
    requires { Unsummed a.now b.now sums.old }
    ensures { Unfolded a.now b.now sums.new }
{
    let mut next = 0;
    // A turn goes on behind the last row that it took, so this is no `for` over the places.
    while next < a.len() {
        let i = next;
        next = i + 1;
        if a[i] != 0 {
            // Three more places within reach: each search leaves room for the ones that follow.
            let end = i + REACH;
            let i1 = past_zeros(a, i + 1, end - 2);
            let i2 = past_zeros(a, i1 + 1, end - 1);
            let i3 = past_zeros(a, i2 + 1, end);
            next = i3 + 1;
            let r0 = Row::of(a, i, end);
            let r1 = Row::of(a, i1, end);
            let r2 = Row::of(a, i2, end);
            let r3 = Row::of(a, i3, end);
            if 0 < r1.factor + r2.factor + r3.factor {
                add_rows(sums, b, i, [r0, r1, r2, r3]);
            } else {
                add_rows(sums, b, i, [r0]);
            }
        }
    }
}

// Adds c to coefficient k.
fn add_at(out: &mut [u32], q: u32, k: usize, c: u32)
    requires { (k < length out.old) × (get_or out.old k 0 < q) × (c ≤ q) × (q < 2 ^ 25) }
    ensures { out.new ≡ set out.old k ((get_or out.old k 0 + c) % q) }
{
    out[k] = wrap(q, out[k] + c);
}

// How many halves of n an exponent has passed: a number and no enum, since docs/FORMS.md promises a match over ranges. Comparisons, since with `e / half` the product with a challenge took a third longer.
fn range_of(half: usize, e: usize) -> usize
    requires { (0 < half) × (e < 4 * half) × (half ≤ 2048) }
    ensures { result ≡ e / half }
{
    if e < half {
        return 0;
    }
    if e < 2 * half {
        return 1;
    }
    if e < 3 * half { 2 } else { 3 }
}

// Adds c X^e (SPEC 2.2): in the first range the exponent stays, in the second it folds to two, in the third it is negated. The ranges go by halves of n.
fn fold_in(out: &mut [u32], half: usize, q: u32, e: usize, c: u32)
    requires { Foldable half q out.old e c }
    ensures { Folded half q out.old e c out.new }
{
    let range = range_of(half, e);
    match range {
        0..=1 => {
            add_at(out, q, e, c);
        }
        2 => {
            let high = e - half;
            let low = high - half;
            add_at(out, q, high, c);
            add_at(out, q, low, q - c);
        }
        _ => {
            add_at(out, q, e - 3 * half, q - c);
        }
    }
}

// Every coefficient, reduced once, with its exponent folded.
fn fold_all(p: Numbers, sums: &[u64], out: &mut [u32])
    requires trinomial { Trinomial p }
    requires sums_len { (length sums.now ≡ 2 * p.n + 14) × (length out.old ≡ p.n) }
    ensures { FoldedAll p sums.now out.new }
{
    let half = p.n / 2;
    out.fill(0);
    for (e, &sum) in sums[..2 * p.n - 1].iter().enumerate() {
        fold_in(out, half, p.q, e, modulo(p.q, sum));
    }
}

// The product of two elements of remainders.
pub fn multiply(p: Numbers, a: &[u32], b: &[u32], out: &mut [u32])
    requires trinomial { Trinomial p }
    requires residues { Residues p a.now × Residues p b.now × (length out.old ≡ p.n) }
    ensures { out.new ≡ multiplied p a.now b.now }
{
    let mut padded = [0u64; limits::CAPACITY + 30];
    let padded = &mut padded[..p.n + 30];
    pad(b, padded);
    let mut sums = [0u64; 2 * limits::CAPACITY + 14];
    let sums = &mut sums[..2 * p.n + 14];
    sums.fill(0);
    rows(a, padded, sums);
    fold_all(p, sums, out);
}
