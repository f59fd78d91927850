// The kind U: yes where right is yes, and with left yes one day further than a next day that is yes.
ghost use Rattle.std.specs.Prelude.{◌≡◌, ◌&&◌};
ghost use Rattle.model.specs.Entries.{until_entry};
ghost use Rattle.model.specs.Numbers.{lowest};
ghost use Rattle.model.specs.Table.{says_yes, number};
ghost use Rattle.examiner.specs.Read.{words_of, by_day};

use crate::examination::Examination;
use crate::lowest::{Candidates, lowest};
use crate::words::PointWords;
use model::{Calendar, Floor, Place};

// Beginnings from a day: on those days that are yes themselves, by the line's own words at the point.
#[derive(Clone, Copy)]
pub(crate) struct Beginnings<'a> {
    own: PointWords<'a>,
}

impl Candidates for Beginnings<'_> {
    ghost counts = { λ s e. says_yes (by_day s.own e) };

    ghost number = { λ s e. number (by_day s.own e) };

    fn number_of(&self, k: usize) -> Option<u32> {
        let own = self.own.word(k);
        if own % 2 == 0 {
            return None;
        }
        Some(own / 2)
    }
}

impl<F: Floor, C: Calendar> Examination<'_, F, C> {
    // The lowest number of a yes day to which the entry's day leads.
    fn lowest_beginning(&self, own: Place) -> Option<u32>
        ensures { result ≡ lowest self.now.findings.numbers.days (λ e. C.Floor.leads self.now.calendar.now own.day e && says_yes (words_of self.now.findings own.line e own.point)) (λ e. number (words_of self.now.findings own.line e own.point)) }
    {
        let beginnings = Beginnings {
            own: self.findings.point_words(own),
        };
        lowest(self.calendar, &beginnings, own.day)
    }

    // The word that the entry rule wants of the entry `own`.
    pub(crate) fn until_word(&self, left: Place, right: Place, own: Place) -> u64
        requires { (left.day ≡ own.day) × (right.day ≡ own.day) }
        ensures { result ≡ until_entry self.now.findings.numbers.days (C.Floor.leads self.now.calendar.now) (λ e. says_yes (words_of self.now.findings left.line e left.point)) (λ e. says_yes (words_of self.now.findings right.line e right.point)) (λ e. words_of self.now.findings own.line e own.point) own.day }
    {
        if self.findings.is_yes(right) {
            return 1;
        }
        if !self.findings.is_yes(left) {
            return 0;
        }
        match self.lowest_beginning(own) {
            Some(k) => 2 * (1 + k as u64) + 1,
            None => 0,
        }
    }
}
