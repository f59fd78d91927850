// The kind S: no where left is no, and one step further out than a candidate that is no.
ghost use Rattle.std.specs.Prelude.{◌≡◌, not, ◌&&◌, slice_index};
ghost use Rattle.model.specs.Entries.{surrounded_entry};
ghost use Rattle.model.specs.Numbers.{lowest};
ghost use Rattle.model.specs.Table.{says_yes, number};
ghost use Rattle.examiner.specs.Read.{words_of};

use crate::examination::Examination;
use crate::lowest::{Candidates, lowest};
use crate::words::word_at;
use model::{Calendar, Floor, Place};

// Ways on from a point: to those with right no that have a way out themselves, by right's and the line's own words of the day.
#[derive(Clone, Copy)]
pub(crate) struct WaysOn<'a, 'b> {
    right: &'a [u32],
    own: &'b [u32],
}

impl Candidates for WaysOn<'_, '_> {
    ghost counts = { λ s y. not (says_yes (slice_index s.right.now y)) && not (says_yes (slice_index s.own.now y)) };

    ghost number = { λ s y. number (slice_index s.own.now y) };

    fn number_of(&self, k: usize) -> Option<u32> {
        let own = word_at(self.own, k);
        if own % 2 == 1 || word_at(self.right, k) % 2 == 1 {
            return None;
        }
        Some(own / 2)
    }
}

impl<F: Floor, C: Calendar> Examination<'_, F, C> {
    // The lowest number of a no point to which the entry's point leads and at which right is no.
    fn lowest_way(&self, right: Place, own: Place) -> Option<u32>
        ensures { result ≡ lowest self.now.findings.numbers.points (λ y. (F.Floor.leads self.now.floor.now own.point y && not (says_yes (words_of self.now.findings right.line right.day y))) && not (says_yes (words_of self.now.findings own.line own.day y))) (λ y. number (words_of self.now.findings own.line own.day y)) }
    {
        let ways = WaysOn {
            right: self.findings.day_words(right),
            own: self.findings.day_words(own),
        };
        lowest(self.floor, &ways, own.point)
    }

    // The word that the entry rule wants of the entry `own`.
    pub(crate) fn surrounded_word(&self, left: Place, right: Place, own: Place) -> u64
        requires { left.point ≡ own.point }
        ensures { result ≡ surrounded_entry self.now.findings.numbers.points (F.Floor.leads self.now.floor.now) (λ y. says_yes (words_of self.now.findings left.line left.day y)) (λ y. says_yes (words_of self.now.findings right.line right.day y)) (λ y. words_of self.now.findings own.line own.day y) own.point }
    {
        if !self.findings.is_yes(left) {
            return 0;
        }
        match self.lowest_way(right, own) {
            Some(k) => 2 * (1 + k as u64),
            None => 1,
        }
    }
}
