// What an object's kind allows: its codes, its values, and the questions that fit it.
#![tactic(auto)]

ghost use Rattle.std.specs.Prelude.{◌≡◌, ltb, length};
ghost use Rattle.meaning.specs.Operations.{allowed, code_allowed, value_allowed};
ghost use Rattle.meaning.specs.Questions.{fits};
ghost use Rattle.meaning.specs.Refusals.{well_asked};
ghost use Rattle.table_kinds.specs.Kinds.{code_number, kind_number};
ghost use Rattle.refusal_kind.specs.Asking.{asked_from};
ghost use Rattle.refusal_kind.specs.Questions.{AsksOf, asks_number};

use std::error::Error;
use std::fmt;
use table_kinds::{Code, Kind};
use words_tags::Value;

const LEAST_AMOUNT: u32 = 1;

const NO_VALUE: u32 = 0;

// The five questions, in the order of their numbers, from 1 on.
#[derive(Clone, Copy, Debug, PartialEq, Eq)]
pub enum Asks {
    Total,
    Flag,
    List,
    Count,
    Holds,
}

impl Asks {
    // The number that stands for the question.
    pub fn number(self) -> u32
        ensures { result ≡ asks_number self }
    {
        match self {
            Asks::Total => 1,
            Asks::Flag => 2,
            Asks::List => 3,
            Asks::Count => 4,
            Asks::Holds => 5,
        }
    }
}

// A number that is no question's.
#[derive(Clone, Copy, Debug, PartialEq, Eq)]
pub struct UnknownQuestion(pub u32);

impl TryFrom<u32> for Asks {
    type Error = UnknownQuestion;

    ghost try_from_gives = { AsksOf };

    fn try_from(number: u32) -> Result<Self, UnknownQuestion> {
        match number {
            1 => Ok(Asks::Total),
            2 => Ok(Asks::Flag),
            3 => Ok(Asks::List),
            4 => Ok(Asks::Count),
            5 => Ok(Asks::Holds),
            _ => Err(UnknownQuestion(number)),
        }
    }
}

impl fmt::Display for UnknownQuestion {
    fn fmt<W: fmt::Write>(&self, f: &mut fmt::Formatter<W>) -> fmt::Result {
        write!(f, "no question has the number {}", self.0)
    }
}

impl Error for UnknownQuestion {}

// Whether an object is declared.
pub fn is_declared(kinds: &[u32], object: u32) -> bool
    ensures { result ≡ ltb object (length kinds.now) }
{
    words_tags::wide(object) < kinds.len()
}

// Whether a kind has this code: all kinds have adds, the grow-only ones and the register no removes, the last three clears.
#[tactic(auto, unfolding(meaning::specs::Operations::code_allowed, meaning::specs::Operations::codes_of))]
fn code_allowed(kind: Kind, code: Code) -> bool
    ensures { result ≡ code_allowed (kind_number kind) (code_number code) }
{
    match code {
        Code::Adds => true,
        Code::Removes => !matches!(
            kind,
            Kind::GrowCounter | Kind::GrowSet | Kind::MultiValueRegister
        ),
        Code::Clears => matches!(
            kind,
            Kind::MultiValueRegister | Kind::AddWinsSet | Kind::RemoveWinsSet
        ),
    }
}

// Whether an operation of this code may carry this value, where the kind has the code.
#[tactic(auto, unfolding(meaning::specs::Operations::value_allowed, meaning::specs::Tests::between))]
fn value_allowed(kind: Kind, code: Code, value: Value) -> bool
    ensures { result ≡ value_allowed (kind_number kind) (code_number code) value.0 }
{
    if kind.is_counter() {
        (LEAST_AMOUNT..=meaning::GREATEST_AMOUNT).contains(&value.0)
    } else if kind.is_flag() || code == Code::Clears {
        value.0 == NO_VALUE
    } else {
        true
    }
}

// Whether a kind allows an operation of this code and value; no kind but the nine allows any, and no code but the three is allowed.
#[tactic(auto, using(crate::proofs::Allowances::kind_unknown), unfolding(meaning::specs::Operations::allowed))]
pub fn is_allowed(kind: u32, code: u32, value: Value) -> bool
    ensures { result ≡ allowed kind code value.0 }
{
    let (Ok(kind), Ok(code)) = (Kind::try_from(kind), Code::try_from(code)) else {
        return false;
    };
    code_allowed(kind, code) && value_allowed(kind, code, value)
}

// Whether a question fits a kind: totals are asked of counters, on or off of flags, and all else of the others.
#[tactic(auto, using(table_kinds::proofs::KindLaws::none_counts, crate::proofs::Allowances::none_flags), unfolding(meaning::specs::Questions::fits))]
pub fn is_fitted(question: u32, kind: u32) -> bool
    ensures { result ≡ fits question kind }
{
    match (Asks::try_from(question), Kind::try_from(kind)) {
        (Ok(Asks::Total), Ok(kind)) => kind.is_counter(),
        (Ok(Asks::Flag), Ok(kind)) => kind.is_flag(),
        (Ok(Asks::Total | Asks::Flag), Err(_)) => false,
        (_, Ok(kind)) => !kind.is_counter() && !kind.is_flag(),
        (_, Err(_)) => true,
    }
}

// Whether a question is known, with a value only where it takes one; its object does not matter here.
#[tactic(auto, unfolding(meaning::specs::Refusals::well_asked, meaning::specs::Tests::between))]
pub fn well_asked(question: u32, value: Value) -> bool
    ensures { result ≡ well_asked (asked_from 0 question value.0) }
{
    match Asks::try_from(question) {
        Ok(Asks::Holds) => true,
        Ok(_) => value.0 == NO_VALUE,
        Err(_) => false,
    }
}
