// Keccak-p[1600, 24] of FIPS 202 (SPEC 4.1 to 4.7), on five rows of five lanes: place x of row y is the lane A[x, y].
//
// Between the two calls of `flip` six lanes are held complemented (the Keccak team's lane complementing): then χ can take
// or for and, and needs the complement of few lanes. A round reads one array and writes another, a row at a time. So few
// values live at once that the compiler spills next to none, and the arrays take turns, so that the state is not copied
// from round to round.
#![tactic(auto)]

ghost use Rattle.std.specs.Prelude.{◌≡◌, [], ◌∷◌, length};
ghost use Rattle.keccak.specs.Keccak.{keccak, row};
ghost use Rattle.keccak.specs.Inner.{flipped, effects, held_lane, held_round};

// The round constants of ι (SPEC 4.6).
const RC: [u64; 24] = [
    0x0000000000000001,
    0x0000000000008082,
    0x800000000000808a,
    0x8000000080008000,
    0x000000000000808b,
    0x0000000080000001,
    0x8000000080008081,
    0x8000000000008009,
    0x000000000000008a,
    0x0000000000000088,
    0x0000000080008009,
    0x000000008000000a,
    0x000000008000808b,
    0x800000000000008b,
    0x8000000000008089,
    0x8000000000008003,
    0x8000000000008002,
    0x8000000000000080,
    0x000000000000800a,
    0x800000008000000a,
    0x8000000080008081,
    0x8000000000008080,
    0x0000000080000001,
    0x8000000080008008,
];

// The six lanes complemented.
fn flip(a: [[u64; 5]; 5]) -> [[u64; 5]; 5]
    ensures { result ≡ flipped a }
{
    let [r0, r1, r2, r3, r4] = a;
    [
        [r0[0], !r0[1], !r0[2], r0[3], r0[4]],
        [r1[0], r1[1], r1[2], !r1[3], r1[4]],
        [r2[0], r2[1], !r2[2], r2[3], r2[4]],
        [r3[0], r3[1], !r3[2], r3[3], r3[4]],
        [!r4[0], r4[1], r4[2], r4[3], r4[4]],
    ]
}

// What θ xors into each column (D of SPEC 4.2).
fn effect(a: &[[u64; 5]; 5]) -> [u64; 5]
    ensures { result ≡ effects a.now }
{
    let [r0, r1, r2, r3, r4] = a;
    let c0 = r0[0] ^ r1[0] ^ r2[0] ^ r3[0] ^ r4[0];
    let c1 = r0[1] ^ r1[1] ^ r2[1] ^ r3[1] ^ r4[1];
    let c2 = r0[2] ^ r1[2] ^ r2[2] ^ r3[2] ^ r4[2];
    let c3 = r0[3] ^ r1[3] ^ r2[3] ^ r3[3] ^ r4[3];
    let c4 = r0[4] ^ r1[4] ^ r2[4] ^ r3[4] ^ r4[4];
    [
        c4 ^ c1.rotate_left(1),
        c0 ^ c2.rotate_left(1),
        c1 ^ c3.rotate_left(1),
        c2 ^ c4.rotate_left(1),
        c3 ^ c0.rotate_left(1),
    ]
}

// Row 0 of what a round gives, and below it the other rows: the lanes that π puts there, each with its column's effect
// and turned by its offset of ρ, and then χ over the row. ι adds the constant `rc` to row 0 alone. They are five functions,
// since which lanes are held complemented, and so where χ has `&` and where `|`, differs from row to row.
fn row0(a: &[[u64; 5]; 5], d: &[u64; 5], rc: u64) -> [u64; 5]
    ensures { result ≡ row (held_lane rc d.now a.now) 0 }
{
    let b0 = a[0][0] ^ d[0];
    let b1 = (a[1][1] ^ d[1]).rotate_left(44);
    let b2 = (a[2][2] ^ d[2]).rotate_left(43);
    let b3 = (a[3][3] ^ d[3]).rotate_left(21);
    let b4 = (a[4][4] ^ d[4]).rotate_left(14);
    [
        b0 ^ (b1 | b2) ^ rc,
        b1 ^ (!b2 | b3),
        b2 ^ (b3 & b4),
        b3 ^ (b4 | b0),
        b4 ^ (b0 & b1),
    ]
}

fn row1(a: &[[u64; 5]; 5], d: &[u64; 5]) -> [u64; 5]
    ensures { result ≡ row (held_lane 0 d.now a.now) 1 }
{
    let b0 = (a[0][3] ^ d[3]).rotate_left(28);
    let b1 = (a[1][4] ^ d[4]).rotate_left(20);
    let b2 = (a[2][0] ^ d[0]).rotate_left(3);
    let b3 = (a[3][1] ^ d[1]).rotate_left(45);
    let b4 = (a[4][2] ^ d[2]).rotate_left(61);
    [
        b0 ^ (b1 | b2),
        b1 ^ (b2 & b3),
        b2 ^ (b3 | !b4),
        b3 ^ (b4 | b0),
        b4 ^ (b0 & b1),
    ]
}

fn row2(a: &[[u64; 5]; 5], d: &[u64; 5]) -> [u64; 5]
    ensures { result ≡ row (held_lane 0 d.now a.now) 2 }
{
    let b0 = (a[0][1] ^ d[1]).rotate_left(1);
    let b1 = (a[1][2] ^ d[2]).rotate_left(6);
    let b2 = (a[2][3] ^ d[3]).rotate_left(25);
    let b3 = (a[3][4] ^ d[4]).rotate_left(8);
    let b4 = (a[4][0] ^ d[0]).rotate_left(18);
    [
        b0 ^ (b1 | b2),
        b1 ^ (b2 & b3),
        b2 ^ (!b3 & b4),
        b3 ^ (!b4 & !b0),
        b4 ^ (b0 & b1),
    ]
}

fn row3(a: &[[u64; 5]; 5], d: &[u64; 5]) -> [u64; 5]
    ensures { result ≡ row (held_lane 0 d.now a.now) 3 }
{
    let b0 = (a[0][4] ^ d[4]).rotate_left(27);
    let b1 = (a[1][0] ^ d[0]).rotate_left(36);
    let b2 = (a[2][1] ^ d[1]).rotate_left(10);
    let b3 = (a[3][2] ^ d[2]).rotate_left(15);
    let b4 = (a[4][3] ^ d[3]).rotate_left(56);
    [
        b0 ^ (b1 & b2),
        b1 ^ (b2 | b3),
        b2 ^ (!b3 | b4),
        b3 ^ (!b4 | !b0),
        b4 ^ (b0 | b1),
    ]
}

fn row4(a: &[[u64; 5]; 5], d: &[u64; 5]) -> [u64; 5]
    ensures { result ≡ row (held_lane 0 d.now a.now) 4 }
{
    let b0 = (a[0][2] ^ d[2]).rotate_left(62);
    let b1 = (a[1][3] ^ d[3]).rotate_left(55);
    let b2 = (a[2][4] ^ d[4]).rotate_left(39);
    let b3 = (a[3][0] ^ d[0]).rotate_left(41);
    let b4 = (a[4][1] ^ d[1]).rotate_left(2);
    [
        b0 ^ (!b1 & b2),
        b1 ^ (!b2 & !b3),
        b2 ^ (b3 & b4),
        b3 ^ (b4 | b0),
        b4 ^ (b0 & b1),
    ]
}

// A round with the constant `rc`, of a state that is held as `flip` leaves it. (One assignment of all rows to `*out` was
// tried: it is built on the stack and copied, and the permutation takes 1.3 times as long.)
#[tactic(auto, using(crate::proofs::Shape::stored), unfolding(crate::specs::Inner::held_round))]
fn round(a: &[[u64; 5]; 5], rc: u64, out: &mut [[u64; 5]; 5])
    ensures { out.new ≡ held_round rc a.now }
{
    let d = effect(a);
    out[0] = row0(a, &d, rc);
    out[1] = row1(a, &d);
    out[2] = row2(a, &d);
    out[3] = row3(a, &d);
    out[4] = row4(a, &d);
}

// SPEC 4.7: the permutation. (`round` by value was tried: the state is copied, and it takes at least 1.1 times as long.)
pub fn permute(a: [[u64; 5]; 5]) -> [[u64; 5]; 5]
    ensures { result ≡ keccak a }
{
    let mut s = flip(a);
    let mut t = [[0; 5]; 5];
    let (pairs, _) = RC.as_chunks::<2>();
    for &[even, odd] in pairs {
        round(&s, even, &mut t);
        round(&t, odd, &mut s);
    }
    flip(s)
}
