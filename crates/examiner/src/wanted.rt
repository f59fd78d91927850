// The word that the entry rule wants at one place, computed afresh from the readings and the other words of the book.
ghost use Rattle.std.specs.Prelude.{◌≡◌};
ghost use Rattle.model.specs.Entries.{kind_entry};
ghost use Rattle.examiner.specs.FalsePlaces.{wanted};
ghost use Rattle.examiner.specs.Read.{words_of, model_for};

use crate::examination::Examination;
use model::{Calendar, Floor, Kind, Line, Place, kind_row};

impl<F: Floor, C: Calendar> Examination<'_, F, C> {
    // The word of an entry whose line is of that kind and has those operands.
    fn kind_word(&self, kind: Kind, line: Line, own: Place) -> u64
        ensures { result ≡ kind_entry (model_for self.now.findings (F.Floor.leads self.now.floor.now) (C.Floor.leads self.now.calendar.now) self.now.readings.now) kind (words_of self.now.findings) line.left line.right (words_of self.now.findings own.line) own.day own.point }
    {
        let left = Place {
            line: line.left as usize,
            ..own
        };
        let right = Place {
            line: line.right as usize,
            ..own
        };
        match kind {
            Kind::Truth => 1,
            Kind::Reading => self.reading(line.left, own) as u64,
            Kind::Not => (!self.findings.is_yes(left)) as u64,
            Kind::Or => (self.findings.is_yes(left) || self.findings.is_yes(right)) as u64,
            Kind::Near => self.near_word(left),
            Kind::Surrounded => self.surrounded_word(left, right, own),
            Kind::Next => self.next_word(left),
            Kind::Until => self.until_word(left, right, own),
            Kind::Awaited => self.awaited_word(left, own),
        }
    }

    // The word of an entry that is on that line; 0 for a line of no kind.
    pub(crate) fn wanted_word(&self, line: Line, at: Place) -> u64
        ensures { result ≡ wanted (model_for self.now.findings (F.Floor.leads self.now.floor.now) (C.Floor.leads self.now.calendar.now) self.now.readings.now) line (words_of self.now.findings) at.line at.day at.point }
    {
        match kind_row(line.kind) {
            Some(row) => self.kind_word(row.kind, line, at),
            None => 0,
        }
    }
}
