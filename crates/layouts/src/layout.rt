// A layout: a row of the table in SPEC 6.3.
ghost use Rattle.std.specs.Prelude.{◌≡◌, ◌≤◌};
ghost use Rattle.sets.specs.Good.{Good};
ghost use Rattle.layouts.specs.Layouts.{plain, down, t1_layout, t0_layout, s_layout, z_layout, y_layout, w1_layout, hint_layout, layout_of, size};

use answers::Field;
use sets::numbers::Numbers;

// A code has `bits` bits. It is the value itself or, where `down` holds, base - value. Codes from `least` to `most` are allowed.
// `down` and `base` are not one `Option<u32>`: the definitions of specs/Layouts speak of both, and they may not change. That codes fit
// their bits and a modulus (Readable) is a clause: it is a fact of a layout and a q, and so of no type.
#[derive(Clone, Copy)]
pub struct Layout {
    pub bits: usize,
    pub down: bool,
    pub base: u32,
    pub least: u32,
    pub most: u32,
}

impl Layout {
    // The code is the value.
    fn plain(bits: usize, most: u32) -> Layout
        ensures { result ≡ plain bits most }
    {
        Layout {
            bits,
            down: false,
            base: 0,
            least: 0,
            most,
        }
    }

    // The code is base - value.
    fn down(bits: usize, base: u32, least: u32, most: u32) -> Layout
        ensures { result ≡ down bits base least most }
    {
        Layout {
            bits,
            down: true,
            base,
            least,
            most,
        }
    }

    fn t1(p: Numbers) -> Layout
        requires { Good p }
        ensures { result ≡ t1_layout p }
    {
        Layout::plain(p.t1bits, p.t1top)
    }

    fn t0(p: Numbers) -> Layout
        requires { Good p }
        ensures { result ≡ t0_layout p }
    {
        Layout::down(p.d as usize, 1 << (p.d - 1), 0, (1 << p.d) - 1)
    }

    fn s(p: Numbers) -> Layout
        requires { Good p }
        ensures { result ≡ s_layout p }
    {
        Layout::down(p.sbits, p.eta, 0, 2 * p.eta)
    }

    fn z(p: Numbers) -> Layout
        requires { Good p }
        ensures { result ≡ z_layout p }
    {
        Layout::down(p.zbits, p.gamma1, p.beta + 1, 2 * p.gamma1 - (p.beta + 1))
    }

    // SPEC 5.4: every code.
    pub fn y(p: Numbers) -> Layout
        requires { Good p }
        ensures { result ≡ y_layout p }
    {
        Layout::down(p.zbits, p.gamma1, 0, (1 << p.zbits) - 1)
    }

    fn w1(p: Numbers) -> Layout
        requires { Good p }
        ensures { result ≡ w1_layout p }
    {
        Layout::plain(p.w1bits, (p.q - 1) / (2 * p.gamma2) - 1)
    }

    pub fn hint() -> Layout
        ensures { result ≡ hint_layout }
    {
        Layout::plain(1, 1)
    }

    // The layout of a field.
    pub fn of(p: Numbers, f: Field) -> Layout
        requires { Good p }
        ensures { result ≡ layout_of p f }
    {
        match f {
            Field::T1 => Layout::t1(p),
            Field::T0 => Layout::t0(p),
            Field::S1 | Field::S2 | Field::S => Layout::s(p),
            Field::Z => Layout::z(p),
            Field::W1 => Layout::w1(p),
        }
    }

    // The bytes of n coefficients.
    pub fn size(self, n: usize) -> usize
        requires { (self.bits ≤ 20) × (n ≤ 4096) }
        ensures { result ≡ size self n }
    {
        (self.bits * n).div_ceil(8)
    }
}
