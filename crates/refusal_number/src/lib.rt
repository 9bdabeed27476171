// The refusals and their numbers, once for all crates. 11 is answered with a count, so it is a case of its own in `question`.
#![tactic(auto)]

ghost use Rattle.std.specs.Prelude.{◌≡◌};
ghost use Rattle.refusal_number.specs.Numbers.{number_of};

use std::error::Error;
use std::fmt;

#[derive(Clone, Copy, Debug, PartialEq, Eq)]
pub enum Refusal {
    // Wrong length or type, another N, no line, an unknown question, a value where none is asked.
    Misshapen,

    // A sender that is not in the group, or the own station.
    Stranger,

    // An object that is not declared.
    Undeclared,

    // A code, value or amount that the kind does not allow.
    Forbidden,

    // A number that was accepted already.
    Known,

    // A number or an entry that comes too early.
    Early,

    // An entry below the sender's last vector.
    Falling,

    // More rows than capacity.
    Full,

    // No further own number.
    Last,

    // A space that is shorter than the frame or the line.
    NoRoom,

    // A question that does not fit the kind.
    Unfitted,

    // An opening out of range, in too small a space, or a second one.
    Unopened,

    // A space that holds no table.
    NoTable,

    // A wrong line of a form, or a form that ends too early or goes on.
    Wrong,
}

impl Refusal {
    // The number that is answered.
    pub fn number(self) -> u32
        ensures { result ≡ number_of self }
    {
        match self {
            Refusal::Misshapen => 1,
            Refusal::Stranger => 2,
            Refusal::Undeclared => 3,
            Refusal::Forbidden => 4,
            Refusal::Known => 5,
            Refusal::Early => 6,
            Refusal::Falling => 7,
            Refusal::Full => 8,
            Refusal::Last => 9,
            Refusal::NoRoom => 10,
            Refusal::Unfitted => 12,
            Refusal::Unopened => 13,
            Refusal::NoTable => 14,
            Refusal::Wrong => 15,
        }
    }
}

impl fmt::Display for Refusal {
    fn fmt<W: fmt::Write>(&self, f: &mut fmt::Formatter<W>) -> fmt::Result {
        write!(f, "refused with number {}", self.number())
    }
}

impl Error for Refusal {}
