// Why a call was refused.
ghost use Rattle.std.specs.Prelude.{◌≡◌, Some};
ghost use Rattle.model.specs.Refusals.{number_of};

use std::error::Error;
use std::fmt;

// One list for the whole project; `number` gives each its fixed number.
#[derive(Clone, Copy, PartialEq, Eq, Debug)]
pub enum Refusal {
    // a floor of no points or of more than 4,096
    FloorSize,
    // a list of links that is odd, too long, or names a number that is no point
    LinkList,
    // a calendar of no days or of more than 64
    CalendarSize,
    // a day that leads nowhere
    DeadEnd,
    // a floor or a calendar with another count than the survey was opened with
    OtherCounts,
    // a book that is too short
    ShortBook,
    // a day, point, atom, line, tenths or level out of range
    OutOfRange,
    // a survey without lines
    NoLines,
    // 64 lines already
    LinesFull,
    // a kind letter that is not in the table of kinds
    NoKind,
    // an operand that is not as the kind's row wants it
    BadOperand,
    // a kind or an answer that has nothing to show
    NothingToShow,
    // a strip that is too short
    ShortStrip,
    // a findings book that fails where it is followed
    FalseEntry,
}

impl Refusal {
    // The number by which the refusal is printed and handed to C; a `From` would not say which number that is.
    pub fn number(self) -> u32
        ensures { result ≡ number_of self }
    {
        match self {
            Refusal::FloorSize => 1,
            Refusal::LinkList => 2,
            Refusal::CalendarSize => 3,
            Refusal::DeadEnd => 4,
            Refusal::OtherCounts => 5,
            Refusal::ShortBook => 6,
            Refusal::OutOfRange => 7,
            Refusal::NoLines => 8,
            Refusal::LinesFull => 9,
            Refusal::NoKind => 10,
            Refusal::BadOperand => 11,
            Refusal::NothingToShow => 12,
            Refusal::ShortStrip => 13,
            Refusal::FalseEntry => 14,
        }
    }
}

impl fmt::Display for Refusal {
    ghost use Rattle.model.specs.Printing.{refusal_text};

    ghost output = { λ why. Some (refusal_text why) };

    fn fmt<W: fmt::Write>(&self, f: &mut fmt::Formatter<W>) -> fmt::Result {
        let number = self.number();
        write!(f, "refused, {number}")
    }
}

impl Error for Refusal {}
