// Performs each call that takes the floor and the calendar, and prints it with its answer.
use crate::books::Books;
use crate::say::say_row;
use engine::{Open, Worked};
use examiner::examine;
use journal::Survey;
use model::{Calendar, Floor, Place, SurveyNumbers};
use std::io;

// What a survey stands on, and where its calls are printed.
#[derive(Drop)]
pub(crate) struct Site<'a, F, C> {
    pub rt: &'a HostRuntime,
    pub floor: &'a F,
    pub calendar: &'a C,
}

impl<F: Floor, C: Calendar> Site<'_, F, C> {
    // The open survey, or none where opening it is refused: printed all the same.
    pub(crate) fn open_survey(&self, books: &mut Books) -> io::Result<Option<Open>> {
        print!(self.rt; "  open: ")?;
        match Open::open(self.floor, self.calendar, &mut books.readings, &books.lines) {
            Ok(open) => {
                println!(self.rt; "opened, {}", open.numbers())?;
                Ok(Some(open))
            }
            Err(why) => {
                println!(self.rt; "{why}")?;
                Ok(None)
            }
        }
    }

    // The survey comes back worked, or open where working it is refused.
    pub(crate) fn work_survey(&self, open: Open, books: &mut Books) -> io::Result<Survey> {
        print!(self.rt; "  work: ")?;
        let Books {
            readings,
            lines,
            findings,
        } = books;
        match open.work(self.floor, self.calendar, readings, lines, findings) {
            Ok(worked) => {
                println!(self.rt; "worked")?;
                Ok(Survey::Worked(worked))
            }
            Err((back, why)) => {
                println!(self.rt; "{why}")?;
                Ok(Survey::Open(back))
            }
        }
    }

    // Shows one entry on the strip.
    pub(crate) fn show_entry(
        &self,
        worked: &Worked,
        books: &Books,
        strip: &mut [u32],
        at: Place,
    ) -> io::Result<()> {
        print!(self.rt; "  show {at}: ")?;
        match worked.show(
            self.floor,
            self.calendar,
            &books.lines,
            &books.findings,
            at.line,
            at.day,
            at.point,
            strip,
        ) {
            Ok(count) => {
                print!(self.rt; "wrote {count},")?;
                say_row(self.rt, strip, 0, count)
            }
            Err(why) => println!(self.rt; "{why}"),
        }
    }

    // Examines a findings book, the survey's own or another.
    pub(crate) fn examine_book(
        &self,
        numbers: SurveyNumbers,
        books: &Books,
        whose: &str,
        findings: &[u32],
    ) -> io::Result<()> {
        let verdict = examine(
            numbers,
            self.floor,
            self.calendar,
            &books.readings,
            &books.lines,
            findings,
        );
        println!(self.rt; "  examine {whose} findings: {verdict}")
    }
}
