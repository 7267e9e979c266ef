// The answers that a call can give, and what each one says in numbers (SPEC 10).
#![tactic(auto)]

ghost use Rattle.std.specs.Prelude.{◌≡◌};
ghost use Rattle.answers.specs.Refusals.{buffer_place, field_place, field_number, refusal_number, refusal_place, refusal_index, done_report, refusal_report, report_of, signing_report, before_tries};

// The buffer that a refusal for length names. Coefficients are the numbers of an element, Packed its bytes.
#[derive(Clone, Copy)]
pub enum Buffer {
    PublicKey,
    SecretKey,
    Zeta,
    ZetaPrime,
    Signature,
    First,
    Second,
    Coefficients,
    Packed,
}

// The field of a bad coefficient. S1 and S2 stand in a secret key; S is an s that is packed or unpacked by itself.
#[derive(Clone, Copy)]
pub enum Field {
    T1,
    T0,
    S1,
    S2,
    S,
    Z,
    W1,
}

// A refusal for a coefficient carries the field and the lowest index.
#[derive(Clone, Copy)]
pub enum Refusal {
    Length(Buffer),
    LongMessage,
    TryLimit,
    Coefficient(Field, usize),
    Hint,
    Dry,
    Spent,
    Differs,
}

// Signing that did not sign says after how many tries (SPEC 8.10).
#[derive(Clone, Copy)]
pub struct NotSigned {
    pub why: Refusal,
    pub tries: u32,
}

// Before the first try.
impl From<Refusal> for NotSigned {
    ghost from_gives = { λ why e. e ≡ before_tries why };

    fn from(why: Refusal) -> Self {
        NotSigned { why, tries: 0 }
    }
}

// An answer in numbers (SPEC 10.6). A part that does not apply is 0. The C interface and the programs tell it so; inside, an answer is a Result.
#[derive(Clone, Copy, PartialEq, Eq)]
pub struct Report {
    pub number: u32,
    pub place: u32,
    pub index: usize,
    pub tries: u32,
}

impl Buffer {
    fn place(self) -> u32
        ensures { result ≡ buffer_place self }
    {
        match self {
            Buffer::PublicKey => 1,
            Buffer::SecretKey => 2,
            Buffer::Zeta => 3,
            Buffer::ZetaPrime => 4,
            Buffer::Signature => 5,
            Buffer::First => 6,
            Buffer::Second => 7,
            Buffer::Coefficients => 8,
            Buffer::Packed => 9,
        }
    }
}

impl Field {
    fn place(self) -> u32
        ensures { result ≡ field_place self }
    {
        match self {
            Field::T1 => 17,
            Field::T0 => 18,
            Field::S1 => 19,
            Field::S2 => 20,
            Field::S => 21,
            Field::Z => 22,
            Field::W1 => 23,
        }
    }

    fn number(self) -> u32
        ensures { result ≡ field_number self }
    {
        match self {
            Field::Z => 5,
            Field::T1 => 4,
            Field::T0 => 4,
            Field::S1 => 4,
            Field::S2 => 4,
            Field::S => 4,
            Field::W1 => 4,
        }
    }
}

// A line for each number (SPEC 10.1), in three tables.
impl Refusal {
    fn number(self) -> u32
        ensures { result ≡ refusal_number self }
    {
        match self {
            Refusal::Length(_) => 1,
            Refusal::LongMessage => 2,
            Refusal::TryLimit => 3,
            Refusal::Coefficient(f, _) => f.number(),
            Refusal::Hint => 6,
            Refusal::Dry => 7,
            Refusal::Spent => 8,
            Refusal::Differs => 9,
        }
    }

    fn place(self) -> u32
        ensures { result ≡ refusal_place self }
    {
        match self {
            Refusal::Length(b) => b.place(),
            Refusal::LongMessage => 0,
            Refusal::TryLimit => 0,
            Refusal::Coefficient(f, _) => f.place(),
            Refusal::Hint => 0,
            Refusal::Dry => 0,
            Refusal::Spent => 0,
            Refusal::Differs => 0,
        }
    }

    fn index(self) -> usize
        ensures { result ≡ refusal_index self }
    {
        match self {
            Refusal::Length(_) => 0,
            Refusal::LongMessage => 0,
            Refusal::TryLimit => 0,
            Refusal::Coefficient(_, i) => i,
            Refusal::Hint => 0,
            Refusal::Dry => 0,
            Refusal::Spent => 0,
            Refusal::Differs => 0,
        }
    }
}

impl Report {
    // Done, after so many tries.
    fn done(tries: u32) -> Self
        ensures { result ≡ done_report tries }
    {
        Report {
            number: 0,
            place: 0,
            index: 0,
            tries,
        }
    }

    // A refusal, after so many tries.
    fn refused(why: Refusal, tries: u32) -> Self
        ensures { result ≡ refusal_report why tries }
    {
        Report {
            number: why.number(),
            place: why.place(),
            index: why.index(),
            tries,
        }
    }
}

// The answer of a call that can refuse.
impl From<Result<(), Refusal>> for Report {
    ghost from_gives = { λ answer report. report ≡ report_of answer };

    fn from(answer: Result<(), Refusal>) -> Self {
        match answer {
            Ok(()) => Report::done(0),
            Err(why) => Report::refused(why, 0),
        }
    }
}

// The answer of signing: the count of tries, or why it did not sign.
impl From<Result<u32, NotSigned>> for Report {
    ghost from_gives = { λ answer report. report ≡ signing_report answer };

    fn from(answer: Result<u32, NotSigned>) -> Self {
        match answer {
            Ok(tries) => Report::done(tries),
            Err(NotSigned { why, tries }) => Report::refused(why, tries),
        }
    }
}
