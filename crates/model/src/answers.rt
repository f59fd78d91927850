// What calls answer: a finding, a place of the findings book, and the verdict on one.
ghost use Rattle.std.specs.Prelude.{◌≡◌, Some};
ghost use Rattle.model.specs.Examining.{verdict_number};

use crate::refusal::Refusal;
use std::fmt;

// The yes or no and the number of one entry.
#[derive(Clone, Copy, PartialEq, Eq, Debug)]
pub struct Finding {
    pub yes: bool,
    pub number: u32,
}

// What the word of an entry says.
impl From<u32> for Finding {
    ghost use Rattle.model.specs.Calls.{finding_of};

    ghost from_gives = { λ word finding. finding ≡ finding_of word };

    fn from(word: u32) -> Finding {
        Finding {
            yes: word % 2 == 1,
            number: word / 2,
        }
    }
}

impl fmt::Display for Finding {
    ghost use Rattle.model.specs.Printing.{finding_text};

    ghost output = { λ finding. Some (finding_text finding) };

    fn fmt<W: fmt::Write>(&self, f: &mut fmt::Formatter<W>) -> fmt::Result {
        let answer = if self.yes { "yes" } else { "no" };
        let number = self.number;
        write!(f, "{answer} {number}")
    }
}

// The place of an entry.
#[derive(Clone, Copy, PartialEq, Eq, Debug)]
pub struct Place {
    pub line: usize,
    pub day: usize,
    pub point: usize,
}

impl fmt::Display for Place {
    ghost use Rattle.model.specs.Printing.{place_text};

    ghost output = { λ place. Some (place_text place) };

    fn fmt<W: fmt::Write>(&self, f: &mut fmt::Formatter<W>) -> fmt::Result {
        let line = self.line;
        let day = self.day;
        let point = self.point;
        write!(f, "line {line} day {day} point {point}")
    }
}

// What an examination of a findings book comes to: three outcomes, each with its number, and so neither an option nor a result.
#[derive(Clone, Copy, PartialEq, Eq, Debug)]
pub enum Verdict {
    // every entry is as the entry rule wants it
    Accepted,
    // the first entry that is not, by line, day and point
    FalseAt(Place),
    // nothing was examined
    Refused(Refusal),
}

impl Verdict {
    // 0 where the book is accepted, 14 where an entry is false, else the refusal's number; a `From` would not say which number it is.
    pub fn number(self) -> u32
        ensures { result ≡ verdict_number self }
    {
        match self {
            Verdict::Accepted => 0,
            Verdict::FalseAt(_) => 14,
            Verdict::Refused(why) => why.number(),
        }
    }
}

impl fmt::Display for Verdict {
    ghost use Rattle.model.specs.Printing.{verdict_text};

    ghost output = { λ verdict. Some (verdict_text verdict) };

    fn fmt<W: fmt::Write>(&self, f: &mut fmt::Formatter<W>) -> fmt::Result {
        let number = self.number();
        match self {
            Verdict::Accepted => write!(f, "accepted"),
            Verdict::FalseAt(place) => write!(f, "false at {place}, {number}"),
            Verdict::Refused(why) => write!(f, "{why}"),
        }
    }
}
