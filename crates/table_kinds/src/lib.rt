// The nine kinds of object and the three codes, once for all crates: as they stand in words, as types, and what a kind says by itself.
#![tactic(auto)]

ghost use Rattle.std.specs.Prelude.{◌≡◌, get_or};
ghost use Rattle.meaning.specs.Operations.{is_counter, is_flag, removes_stand};
ghost use Rattle.table_kinds.specs.Kinds.{CodeOf, KindOf, kind_number};

use std::error::Error;
use std::fmt;

// What stands for the kind of an object that is not declared.
pub const NO_KIND: u32 = 0;

// The nine kinds, in the order of their numbers, from 1 on.
#[derive(Clone, Copy, Debug, PartialEq, Eq)]
pub enum Kind {
    GrowCounter,
    UpDownCounter,
    GrowSet,
    TwoPhaseSet,
    EnableWinsFlag,
    DisableWinsFlag,
    MultiValueRegister,
    AddWinsSet,
    RemoveWinsSet,
}

impl Kind {
    // The number that stands for the kind in words.
    pub fn number(self) -> u32
        ensures { result ≡ kind_number self }
    {
        match self {
            Kind::GrowCounter => 1,
            Kind::UpDownCounter => 2,
            Kind::GrowSet => 3,
            Kind::TwoPhaseSet => 4,
            Kind::EnableWinsFlag => 5,
            Kind::DisableWinsFlag => 6,
            Kind::MultiValueRegister => 7,
            Kind::AddWinsSet => 8,
            Kind::RemoveWinsSet => 9,
        }
    }

    // Counters' values are amounts, and they keep no rows.
    #[tactic(auto, unfolding(meaning::specs::Operations::is_counter))]
    pub fn is_counter(self) -> bool
        ensures { result ≡ is_counter (kind_number self) }
    {
        matches!(self, Kind::GrowCounter | Kind::UpDownCounter)
    }

    // Flags' operations carry no value.
    #[tactic(auto, unfolding(meaning::specs::Operations::is_flag))]
    pub fn is_flag(self) -> bool
        ensures { result ≡ is_flag (kind_number self) }
    {
        matches!(self, Kind::EnableWinsFlag | Kind::DisableWinsFlag)
    }

    #[tactic(auto, unfolding(meaning::specs::Operations::removes_stand))]
    pub fn removes_stand(self) -> bool
        ensures { result ≡ removes_stand (kind_number self) }
    {
        matches!(self, Kind::DisableWinsFlag | Kind::RemoveWinsSet)
    }
}

// A number that is no kind's.
#[derive(Clone, Copy, Debug, PartialEq, Eq)]
pub struct UnknownKind(pub u32);

impl TryFrom<u32> for Kind {
    type Error = UnknownKind;

    ghost try_from_gives = { KindOf };

    fn try_from(number: u32) -> Result<Self, UnknownKind> {
        match number {
            1 => Ok(Kind::GrowCounter),
            2 => Ok(Kind::UpDownCounter),
            3 => Ok(Kind::GrowSet),
            4 => Ok(Kind::TwoPhaseSet),
            5 => Ok(Kind::EnableWinsFlag),
            6 => Ok(Kind::DisableWinsFlag),
            7 => Ok(Kind::MultiValueRegister),
            8 => Ok(Kind::AddWinsSet),
            9 => Ok(Kind::RemoveWinsSet),
            _ => Err(UnknownKind(number)),
        }
    }
}

impl fmt::Display for UnknownKind {
    fn fmt<W: fmt::Write>(&self, f: &mut fmt::Formatter<W>) -> fmt::Result {
        write!(f, "no kind has the number {}", self.0)
    }
}

impl Error for UnknownKind {}

// The codes as they stand in words: add, write, enable or increase; remove, disable or decrease; clear.
pub const ADDS: u32 = 1;

pub const REMOVES: u32 = 2;

pub const CLEARS: u32 = 3;

// The three codes.
#[derive(Clone, Copy, Debug, PartialEq, Eq)]
pub enum Code {
    Adds,
    Removes,
    Clears,
}

// A number that is no code's.
#[derive(Clone, Copy, Debug, PartialEq, Eq)]
pub struct UnknownCode(pub u32);

impl TryFrom<u32> for Code {
    type Error = UnknownCode;

    ghost try_from_gives = { CodeOf };

    fn try_from(number: u32) -> Result<Self, UnknownCode> {
        match number {
            ADDS => Ok(Code::Adds),
            REMOVES => Ok(Code::Removes),
            CLEARS => Ok(Code::Clears),
            _ => Err(UnknownCode(number)),
        }
    }
}

impl fmt::Display for UnknownCode {
    fn fmt<W: fmt::Write>(&self, f: &mut fmt::Formatter<W>) -> fmt::Result {
        write!(f, "no code has the number {}", self.0)
    }
}

impl Error for UnknownCode {}

// The number of an object's kind, or none where it is not declared.
pub fn kind_of(kinds: &[u32], object: u32) -> u32
    ensures { result ≡ get_or kinds.now object 0 }
{
    kinds
        .get(words_tags::wide(object))
        .copied()
        .unwrap_or(NO_KIND)
}

// Whether objects of the kind with this number are counters; a number that is no kind's says no.
#[tactic(auto, using(crate::proofs::KindLaws::none_counts))]
pub fn is_counter(kind: u32) -> bool
    ensures { result ≡ is_counter kind }
{
    match Kind::try_from(kind) {
        Ok(kind) => kind.is_counter(),
        Err(_) => false,
    }
}

// Whether removes stand in objects of the kind with this number.
#[tactic(auto, using(crate::proofs::KindLaws::none_stands))]
pub fn removes_stand(kind: u32) -> bool
    ensures { result ≡ removes_stand kind }
{
    match Kind::try_from(kind) {
        Ok(kind) => kind.removes_stand(),
        Err(_) => false,
    }
}
