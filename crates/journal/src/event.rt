// What can be done with a survey once it is opened, and what is answered.
ghost use Rattle.std.specs.Prelude.{Some};

use model::{Finding, Place, Refusal, Verdict};
use std::fmt;

// Where a reading stands.
#[derive(Clone, Copy)]
pub struct ReadingPlace {
    pub day: usize,
    pub point: usize,
    pub atom: u32,
}

impl fmt::Display for ReadingPlace {
    ghost use Rattle.journal.specs.Printing.{reading_place_text};

    ghost output = { λ place. Some (reading_place_text place) };

    fn fmt<W: fmt::Write>(&self, f: &mut fmt::Formatter<W>) -> fmt::Result {
        let day = self.day;
        let point = self.point;
        let atom = self.atom;
        write!(f, "day {day} point {point} atom {atom}")
    }
}

// One event: a call with its arguments, on the floor, the calendar and the books of the replay.
#[derive(Clone, Copy)]
pub enum Event<'a> {
    // sets or clears one reading
    Record(ReadingPlace, bool),
    // records whether tenths of a degree reach a level
    Gauge(ReadingPlace, i32, i32),
    // appends a line: kind, left, right
    Phrase(u8, u32, u32),
    // works the survey
    Work,
    // asks for one entry
    Ask(Place),
    // shows one entry on the strip
    Show(Place),
    // examines the survey's own findings book
    Examine,
    // examines another findings book
    ExamineOther(&'a [u32]),
    // reopens the survey
    Reopen,
}

// What the call of an event answered.
#[derive(Clone, Copy)]
pub enum Answer {
    // record and gauge
    Recorded(Result<(), Refusal>),
    // the line's number
    Phrased(Result<usize, Refusal>),
    Worked(Result<(), Refusal>),
    Asked(Result<Finding, Refusal>),
    // how many numbers were written
    Shown(Result<usize, Refusal>),
    Examined(Verdict),
    Reopened,
}
