// Refusals: the reasons for which a call sends its input back, each with its number (docs/RULES.md, section 2).
// Every call answers with one of these or with its figures; a call's checks end in a verdict.
// Uses nothing.
#![tactic(auto)]

ghost use Rattle.std.specs.Prelude.{◌≡◌};
ghost use Rattle.refusals.specs.Numbers.{number_of};

use std::error::Error;
use std::fmt;

// Why an input is refused, in the order of the numbers 1 to 13.
#[derive(Clone, Copy, Debug, PartialEq, Eq)]
pub enum Refusal {
    Branching,
    LeafCount,
    LeafList,
    LeafByte,
    ActiveCount,
    Stations,
    ClassNumbers,
    IndexTable,
    Messages,
    Budget,
    LogRoom,
    ReferenceTime,
    Text,
}

// What a call's checks come to: the first refusal in their order, or none.
pub type Verdict = Result<(), Refusal>;

// The number that a script is told.
impl From<Refusal> for u32 {
    ghost from_gives = { λ refusal number. number ≡ number_of refusal };

    fn from(refusal: Refusal) -> u32 {
        match refusal {
            Refusal::Branching => 1,
            Refusal::LeafCount => 2,
            Refusal::LeafList => 3,
            Refusal::LeafByte => 4,
            Refusal::ActiveCount => 5,
            Refusal::Stations => 6,
            Refusal::ClassNumbers => 7,
            Refusal::IndexTable => 8,
            Refusal::Messages => 9,
            Refusal::Budget => 10,
            Refusal::LogRoom => 11,
            Refusal::ReferenceTime => 12,
            Refusal::Text => 13,
        }
    }
}

// The same number, by its name.
pub fn number(refusal: Refusal) -> u32
    ensures { result ≡ number_of refusal }
{
    u32::from(refusal)
}

impl fmt::Display for Refusal {
    fn fmt<W: fmt::Write>(&self, f: &mut fmt::Formatter<W>) -> fmt::Result {
        write!(f, "refused {}", number(*self))
    }
}

impl Error for Refusal {}
