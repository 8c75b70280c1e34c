ghost use Rattle.std.specs.Prelude.{◌≡◌, not, [], ◌∷◌, Some};
ghost use Rattle.refusals.specs.Answers.{told, due, judged};
ghost use Rattle.refusals.specs.Refusals.{number_of, word_of};

use std::error::Error;
use std::fmt;

// Why a call was turned down. Reading and writing share one list, and docs/REFUSALS.md says of each
// case when it is due and what it leaves.
#[derive(Clone, Copy, PartialEq, Eq, Debug)]
pub enum Refusal {
    BadEof = 1,
    BadOffset = 2,
    BadIndex = 3,
    BadValue = 4,
    BadVersion = 5,
    PlaceholderMismatch = 6,
    Overflow = 7,
    NoSpace = 8,
    NoPlace = 9,
    RegisterFull = 10,
    Unfilled = 11,
}

impl Refusal {
    // The number by which contracts, programs and stored answers name the refusal. (A method, since `as u8` has no
    // contract that callers could cite.)
    pub fn number(self) -> u8
        ensures value { result ≡ number_of self }
    {
        self as u8
    }

    // The refusal's name as text. (The derived `Debug` prints it too, but has no contract.)
    pub fn word(self) -> &'static str
        ensures value { result.now ≡ word_of self }
    {
        match self {
            Refusal::BadEof => "BadEof",
            Refusal::BadOffset => "BadOffset",
            Refusal::BadIndex => "BadIndex",
            Refusal::BadValue => "BadValue",
            Refusal::BadVersion => "BadVersion",
            Refusal::PlaceholderMismatch => "PlaceholderMismatch",
            Refusal::Overflow => "Overflow",
            Refusal::NoSpace => "NoSpace",
            Refusal::NoPlace => "NoPlace",
            Refusal::RegisterFull => "RegisterFull",
            Refusal::Unfilled => "Unfilled",
        }
    }

    // The refusal, unless the condition holds.
    pub fn unless(self, cond: bool) -> Result<(), Refusal>
        ensures answer { told (λ t. t) result ≡ judged (due self (not cond) ∷ []) tt }
    {
        cond.then_some(()).ok_or(self)
    }
}

// A refusal displays as its word.
impl fmt::Display for Refusal {
    ghost output = { λ e. Some (word_of e) };

    fn fmt<W: fmt::Write>(&self, f: &mut fmt::Formatter<W>) -> fmt::Result {
        f.write_str(self.word())
    }
}

impl Error for Refusal {}
