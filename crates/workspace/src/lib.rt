// The memory that a call works in: elements of remainders, one after the other, each at a place with a name. The set and the memory are lent side
// by side, with Trinomial and Room as clauses: a method of a struct of both, through `&mut self`, would have to promise in each contract that
// the set stays as it was.
#![tactic(auto)]

pub mod arithmetic;
pub mod commitment;
pub mod drawing;
pub mod packed;
pub mod reading;

ghost use Rattle.std.specs.Prelude.{◌≡◌};
ghost use Rattle.sets.specs.Good.{Good};
ghost use Rattle.workspace.specs.Inner.{at, Spans};

use packing::parts::Span;
use sets::numbers::Numbers;

// How many elements there are.
pub const PLACES: usize = 11;

// What stands where. Key making and checking need few places of their own, so some have two names: t stands where y does, t1 where w does,
// a·z where w - c·s2 does, and w1 where c·t0 does.
#[derive(Clone, Copy)]
pub enum Place {
    A,
    S1,
    S2,
    T0,
    Y,
    W,
    C,
    Z,
    Rest,
    Ct0,
    Hints,
    T,
    T1,
    Az,
    W1,
}

impl Place {
    // Which element of the memory it is.
    fn at(self) -> usize
        ensures { result ≡ at self }
    {
        match self {
            Place::A => 0,
            Place::S1 => 1,
            Place::S2 => 2,
            Place::T0 => 3,
            Place::Y => 4,
            Place::W => 5,
            Place::C => 6,
            Place::Z => 7,
            Place::Rest => 8,
            Place::Ct0 => 9,
            Place::Hints => 10,
            Place::T => 4,
            Place::T1 => 5,
            Place::Az => 8,
            Place::W1 => 9,
        }
    }

    // Where the element stands.
    pub fn span(self, p: Numbers) -> Span
        requires { Good p }
        ensures { Spans p self result.start result.end }
    {
        let start = self.at() * p.n;
        Span {
            start,
            end: start + p.n,
        }
    }
}
