// Every line filled in, by its kind.
ghost use Rattle.std.specs.Prelude.{◌≡◌, ℕ, ◌+◌, ◌*◌, ◌<◌, ◌≤◌, length, slice_index};
ghost use Rattle.model.specs.Books.{model_of, finding_in, BookHolds};
ghost use Rattle.model.specs.Lines.{LawfulLines, Operands};
ghost use Rattle.model.specs.Table.{kind_plane};
ghost use Rattle.engine.specs.Filling.{Written, Made, in_order};

use crate::exploration::Room;
use crate::lower_line::LowerLine;
use crate::plain::{fill_not, fill_or, fill_reading};
use model::{Calendar, Floor, Kind, Line, kind_row};

// A store: its floor, its calendar, and the readings that were taken there.
#[derive(Drop)]
pub(crate) struct Store<'a, F: Floor, C: Calendar> {
    pub(crate) floor: &'a F,
    pub(crate) calendar: &'a C,
    pub(crate) readings: &'a [u32],
    ghost days: { C.Floor.points calendar.now ≤ 64 },
    ghost held: { C.Floor.points calendar.now * F.Floor.points floor.now ≤ length readings.now },
}

impl<F: Floor, C: Calendar> Store<'_, F, C> {
    // One of the lines below.
    fn lower<'b>(&self, below: &'b [u32], line: u32) -> LowerLine<'b>
        requires { line * (C.Floor.points self.now.calendar.now * F.Floor.points self.now.floor.now) + C.Floor.points self.now.calendar.now * F.Floor.points self.now.floor.now ≤ length below.now }
        ensures within { (result.points ≡ F.Floor.points self.now.floor.now) × (result.days ≡ C.Floor.points self.now.calendar.now) }
        ensures words { (k : ℕ) → k < C.Floor.points self.now.calendar.now * F.Floor.points self.now.floor.now → slice_index result.words.now k ≡ slice_index below.now (line * (C.Floor.points self.now.calendar.now * F.Floor.points self.now.floor.now) + k) }
    {
        LowerLine::of_book(
            below,
            line as usize,
            self.calendar.count(),
            self.floor.count(),
        )
    }

    // Writes the words of line i, of that kind, from the readings and the words of the lines below.
    fn fill_line(
        &self,
        kind: Kind,
        line: Line,
        i: usize,
        below: &[u32],
        words: &mut [u32],
        room: &mut Room,
    )
        requires operands { Operands kind i line.left line.right }
        requires held { (length below.now ≡ i * (C.Floor.points self.now.calendar.now * F.Floor.points self.now.floor.now)) × (length words.old ≡ C.Floor.points self.now.calendar.now * F.Floor.points self.now.floor.now) }
        ensures { Made (in_order (F.Floor.points self.now.floor.now) (kind_plane (model_of (F.Floor.points self.now.floor.now) (F.Floor.leads self.now.floor.now) (C.Floor.points self.now.calendar.now) (C.Floor.leads self.now.calendar.now) self.now.readings.now) kind (finding_in below.now (F.Floor.points self.now.floor.now) (C.Floor.points self.now.calendar.now)) line.left line.right)) words.new }
    {
        match kind {
            Kind::Truth => words.fill(1),
            Kind::Reading => fill_reading(self.readings, line.left, words),
            Kind::Not => fill_not(self.lower(below, line.left).words, words),
            Kind::Or => {
                let left = self.lower(below, line.left);
                let right = self.lower(below, line.right);
                fill_or(left.words, right.words, words);
            }
            Kind::Near => self.lower(below, line.left).fill_near(self.floor, words),
            Kind::Surrounded => {
                let left = self.lower(below, line.left);
                let right = self.lower(below, line.right);
                left.fill_surrounded(self.floor, &right, words, room);
            }
            Kind::Next => self.lower(below, line.left).fill_next(self.calendar, words),
            Kind::Until => {
                let left = self.lower(below, line.left);
                let right = self.lower(below, line.right);
                left.fill_until(self.calendar, &right, words, room);
            }
            Kind::Awaited => self
                .lower(below, line.left)
                .fill_future(self.calendar, words, room),
        }
    }

    // Writes the words of line i in the book, whose words before it are those of the lines below.
    fn fill_kind(&self, kind: Kind, line: Line, i: usize, findings: &mut [u32], room: &mut Room)
        requires operands { Operands kind i line.left line.right }
        requires few { i < 64 }
        requires held { i * (C.Floor.points self.now.calendar.now * F.Floor.points self.now.floor.now) + C.Floor.points self.now.calendar.now * F.Floor.points self.now.floor.now ≤ length findings.old }
        ensures { Written (i * (C.Floor.points self.now.calendar.now * F.Floor.points self.now.floor.now)) (C.Floor.points self.now.calendar.now * F.Floor.points self.now.floor.now) (in_order (F.Floor.points self.now.floor.now) (kind_plane (model_of (F.Floor.points self.now.floor.now) (F.Floor.leads self.now.floor.now) (C.Floor.points self.now.calendar.now) (C.Floor.leads self.now.calendar.now) self.now.readings.now) kind (finding_in findings.old (F.Floor.points self.now.floor.now) (C.Floor.points self.now.calendar.now)) line.left line.right)) findings.old findings.new }
    {
        let size = self.calendar.count() * self.floor.count();
        let (below, rest) = findings.split_at_mut(i * size);
        self.fill_line(kind, line, i, below, &mut rest[..size], room);
    }

    // Writes the words of the first `count` lines, from the lowest on.
    pub(crate) fn fill_lines(
        &self,
        lines: &[Line],
        count: usize,
        findings: &mut [u32],
        room: &mut Room,
    )
        requires lawful { LawfulLines lines.now count }
        requires few { (count ≤ 64) × (count ≤ length lines.now) }
        requires held { count * (C.Floor.points self.now.calendar.now * F.Floor.points self.now.floor.now) ≤ length findings.old }
        ensures holds { BookHolds (model_of (F.Floor.points self.now.floor.now) (F.Floor.leads self.now.floor.now) (C.Floor.points self.now.calendar.now) (C.Floor.leads self.now.calendar.now) self.now.readings.now) lines.now count findings.new }
        ensures surplus { (k : ℕ) → count * (C.Floor.points self.now.calendar.now * F.Floor.points self.now.floor.now) ≤ k → slice_index findings.new k ≡ slice_index findings.old k }
    {
        for (i, line) in lines[..count].iter().enumerate() {
            let Some(row) = kind_row(line.kind) else {
                continue;
            };
            self.fill_kind(row.kind, *line, i, findings, room);
        }
    }
}
