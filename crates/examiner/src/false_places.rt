// The first false place, by line, day and point.
ghost use Rattle.std.specs.Prelude.{◌≡◌, ◌↔◌, ◌≤◌, length, IsTrue};
ghost use Rattle.examiner.specs.FalsePlaces.{TrueAt, FalsePoint, FalseDay, FalseLine};
ghost use Rattle.examiner.specs.Read.{words_of, model_for};

use crate::examination::Examination;
use model::{Calendar, Floor, Line, Place};

impl<F: Floor, C: Calendar> Examination<'_, F, C> {
    // Whether the word of a place, which is on that line, is not the wanted one. That is known first, so that the place's own word need not be
    // kept meanwhile.
    fn is_false(&self, line: Line, at: Place) -> bool
        ensures { IsTrue result ↔ (TrueAt (model_for self.now.findings (F.Floor.leads self.now.floor.now) (C.Floor.leads self.now.calendar.now) self.now.readings.now) line (words_of self.now.findings) at.line at.day at.point → ⊥) }
    {
        self.wanted_word(line, at) != self.findings.word(at) as u64
    }

    // The first point of day d at which line i is false.
    fn false_point(&self, line: Line, i: usize, d: usize) -> Option<usize>
        ensures { FalsePoint (model_for self.now.findings (F.Floor.leads self.now.floor.now) (C.Floor.leads self.now.calendar.now) self.now.readings.now) line (words_of self.now.findings) i d result }
    {
        (0..self.findings.numbers.points).find(|x| {
            let at = Place {
                line: i,
                day: d,
                point: *x,
            };
            self.is_false(line, at)
        })
    }

    // The first day and point at which line i is false.
    fn false_day(&self, line: Line, i: usize) -> Option<(usize, usize)>
        ensures { FalseDay (model_for self.now.findings (F.Floor.leads self.now.floor.now) (C.Floor.leads self.now.calendar.now) self.now.readings.now) line (words_of self.now.findings) i result }
    {
        (0..self.findings.numbers.days).find_map(|d| Some((d, self.false_point(line, i, d)?)))
    }

    // The first line that is false among the survey's, with its first day and point.
    pub(crate) fn false_line(&self, lines: &[Line]) -> Option<Place>
        requires { self.now.findings.numbers.lines ≤ length lines.now }
        ensures { FalseLine (model_for self.now.findings (F.Floor.leads self.now.floor.now) (C.Floor.leads self.now.calendar.now) self.now.readings.now) lines.now (words_of self.now.findings) self.now.findings.numbers.lines result }
    {
        (0..self.findings.numbers.lines).find_map(|i| {
            let (day, point) = self.false_day(lines[i], i)?;
            Some(Place {
                line: i,
                day,
                point,
            })
        })
    }
}
