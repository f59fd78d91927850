// What is shown of an entry, by its kind, from the words of a findings book.
ghost use Rattle.std.specs.Prelude.{◌≡◌, ℕ, ◌+◌, ◌*◌, ◌<◌, ◌≤◌, true, false, not, ◌&&◌, length, slice_index};
ghost use Rattle.model.specs.Books.{finding_in};
ghost use Rattle.model.specs.Lines.{Operands};
ghost use Rattle.model.specs.Masks.{bit};
ghost use Rattle.model.specs.Showing.{trace, kind_trail, strip_needed};
ghost use Rattle.model.specs.Table.{says_yes, number};
ghost use Rattle.engine.specs.Exploring.{step_by, at};
ghost use Rattle.engine.specs.Strips.{Put, days_round};

use crate::circle::show_circle;
use crate::day_answers::DayAnswers;
use crate::lower_line::LowerLine;
use crate::surrounded::WaysOut;
use crate::trace::Descent;
use model::{Calendar, Floor, Kind, Place};

// An entry within a floor, a calendar and a findings book that holds its line.
#[derive(Drop)]
pub(crate) struct Entry<'a, F: Floor, C: Calendar> {
    pub(crate) floor: &'a F,
    pub(crate) calendar: &'a C,
    pub(crate) findings: &'a [u32],
    pub(crate) at: Place,
    ghost line: { at.line < 64 },
    ghost days: { C.Floor.points calendar.now ≤ 64 },
    ghost day: { at.day < C.Floor.points calendar.now },
    ghost point: { at.point < F.Floor.points floor.now },
    ghost held: { at.line * (C.Floor.points calendar.now * F.Floor.points floor.now) + C.Floor.points calendar.now * F.Floor.points floor.now ≤ length findings.now },
}

impl<F: Floor, C: Calendar> Entry<'_, F, C> {
    // A line of the book, up to the entry's own.
    fn lower(&self, line: usize) -> LowerLine<'_>
        requires { line ≤ self.now.at.line }
        ensures within { (result.points ≡ F.Floor.points self.now.floor.now) × (result.days ≡ C.Floor.points self.now.calendar.now) }
        ensures words { (k : ℕ) → k < C.Floor.points self.now.calendar.now * F.Floor.points self.now.floor.now → slice_index result.words.now k ≡ slice_index self.now.findings.now (line * (C.Floor.points self.now.calendar.now * F.Floor.points self.now.floor.now) + k) }
    {
        LowerLine::of_book(
            self.findings,
            line,
            self.calendar.count(),
            self.floor.count(),
        )
    }

    // The words of a line on the entry's day.
    fn day_words(&self, line: usize) -> &[u32]
        requires { line ≤ self.now.at.line }
        ensures size { length result.now ≡ F.Floor.points self.now.floor.now }
        ensures words { (y : ℕ) → y < F.Floor.points self.now.floor.now → at result.now y ≡ finding_in self.now.findings.now (F.Floor.points self.now.floor.now) (C.Floor.points self.now.calendar.now) line self.now.at.day y }
    {
        self.lower(line).day(self.at.day)
    }

    // The words of a line at the entry's point.
    fn point_words(&self, line: usize) -> [u32; 64]
        requires { line ≤ self.now.at.line }
        ensures { (e : ℕ) → e < C.Floor.points self.now.calendar.now → at result e ≡ finding_in self.now.findings.now (F.Floor.points self.now.floor.now) (C.Floor.points self.now.calendar.now) line e self.now.at.point }
    {
        self.lower(line).column(self.at.point)
    }

    // The answers of a line at the entry's point, a bit for each day.
    fn point_answers(&self, line: usize) -> u64
        requires { line ≤ self.now.at.line }
        ensures { (e : ℕ) → e < C.Floor.points self.now.calendar.now → bit result e ≡ says_yes (finding_in self.now.findings.now (F.Floor.points self.now.floor.now) (C.Floor.points self.now.calendar.now) line e self.now.at.point) }
    {
        self.lower(line).answers(self.at.point)
    }

    // A way out from the entry.
    fn show_surrounded(&self, left: usize, right: usize, strip: &mut [u32]) -> Option<usize>
        requires lower { (left < self.now.at.line) × (right < self.now.at.line) }
        requires room { number (finding_in self.now.findings.now (F.Floor.points self.now.floor.now) (C.Floor.points self.now.calendar.now) self.now.at.line self.now.at.day self.now.at.point) < length strip.old }
        ensures { Put (trace (F.Floor.points self.now.floor.now) (λ y z. F.Floor.leads self.now.floor.now y z && not (says_yes (finding_in self.now.findings.now (F.Floor.points self.now.floor.now) (C.Floor.points self.now.calendar.now) right self.now.at.day z))) (λ y. not (says_yes (finding_in self.now.findings.now (F.Floor.points self.now.floor.now) (C.Floor.points self.now.calendar.now) left self.now.at.day y))) (λ y. finding_in self.now.findings.now (F.Floor.points self.now.floor.now) (C.Floor.points self.now.calendar.now) self.now.at.line self.now.at.day y) false (number (finding_in self.now.findings.now (F.Floor.points self.now.floor.now) (C.Floor.points self.now.calendar.now) self.now.at.line self.now.at.day self.now.at.point)) self.now.at.point) strip.old strip.new result }
    {
        let ways = WaysOut {
            left: self.day_words(left),
            right: self.day_words(right),
        };
        let descent = Descent {
            floor: self.floor,
            rules: &ways,
            own: self.day_words(self.at.line),
            answer: false,
        };
        descent.show(self.at.point, strip)
    }

    // The days from the entry until right.
    fn show_until(&self, left: usize, right: usize, strip: &mut [u32]) -> Option<usize>
        requires lower { (left < self.now.at.line) × (right < self.now.at.line) }
        requires room { number (finding_in self.now.findings.now (F.Floor.points self.now.floor.now) (C.Floor.points self.now.calendar.now) self.now.at.line self.now.at.day self.now.at.point) < length strip.old }
        ensures { Put (trace (C.Floor.points self.now.calendar.now) (λ e f. says_yes (finding_in self.now.findings.now (F.Floor.points self.now.floor.now) (C.Floor.points self.now.calendar.now) left e self.now.at.point) && C.Floor.leads self.now.calendar.now e f) (λ e. says_yes (finding_in self.now.findings.now (F.Floor.points self.now.floor.now) (C.Floor.points self.now.calendar.now) right e self.now.at.point)) (λ e. finding_in self.now.findings.now (F.Floor.points self.now.floor.now) (C.Floor.points self.now.calendar.now) self.now.at.line e self.now.at.point) true (number (finding_in self.now.findings.now (F.Floor.points self.now.floor.now) (C.Floor.points self.now.calendar.now) self.now.at.line self.now.at.day self.now.at.point)) self.now.at.day) strip.old strip.new result }
    {
        let left = self.point_answers(left);
        let right = self.point_answers(right);
        let descent = Descent {
            floor: self.calendar,
            rules: &DayAnswers { left, right },
            own: &self.point_words(self.at.line),
            answer: true,
        };
        descent.show(self.at.day, strip)
    }

    // Days from the entry that circle and are not awaited.
    fn show_future(&self, left: usize, strip: &mut [u32]) -> Option<usize>
        requires lower { left < self.now.at.line }
        requires room { C.Floor.points self.now.calendar.now < length strip.old }
        ensures { Put (days_round (C.Floor.points self.now.calendar.now) (C.Floor.leads self.now.calendar.now) (λ e. finding_in self.now.findings.now (F.Floor.points self.now.floor.now) (C.Floor.points self.now.calendar.now) self.now.at.line e self.now.at.point) (λ e. finding_in self.now.findings.now (F.Floor.points self.now.floor.now) (C.Floor.points self.now.calendar.now) left e self.now.at.point) self.now.at.day) strip.old strip.new result }
    {
        let own = self.point_words(self.at.line);
        let left_words = self.point_words(left);
        show_circle(self.calendar, &own, &left_words, self.at.day, strip)
    }

    // Writes what there is to show of the entry, whose line is of that kind and has these operands, where the words hold. The answer is how
    // many numbers it has.
    pub(crate) fn show_kind(
        &self,
        kind: Kind,
        left: u32,
        right: u32,
        strip: &mut [u32],
    ) -> Option<usize>
        requires operands { Operands kind self.now.at.line left right }
        requires room { strip_needed kind (C.Floor.points self.now.calendar.now) (number (finding_in self.now.findings.now (F.Floor.points self.now.floor.now) (C.Floor.points self.now.calendar.now) self.now.at.line self.now.at.day self.now.at.point)) ≤ length strip.old }
        ensures { Put (kind_trail (F.Floor.points self.now.floor.now) (F.Floor.leads self.now.floor.now) (C.Floor.points self.now.calendar.now) (C.Floor.leads self.now.calendar.now) kind (finding_in self.now.findings.now (F.Floor.points self.now.floor.now) (C.Floor.points self.now.calendar.now)) left right self.now.at.line self.now.at.day self.now.at.point) strip.old strip.new result }
    {
        let left = left as usize;
        let right = right as usize;
        match kind {
            Kind::Surrounded => self.show_surrounded(left, right, strip),
            Kind::Until => self.show_until(left, right, strip),
            Kind::Awaited => self.show_future(left, strip),
            _ => None,
        }
    }
}
