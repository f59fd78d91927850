// The kind N: left is yes here or at a point that leads here.
ghost use Rattle.std.specs.Prelude.{◌≡◌, ◌&&◌};
ghost use Rattle.model.specs.Numbers.{any};
ghost use Rattle.model.specs.Table.{says_yes, near_word};
ghost use Rattle.examiner.specs.Read.{words_of};

use crate::examination::Examination;
use crate::words::word_at;
use model::{Calendar, Floor, Place};

impl<F: Floor, C: Calendar> Examination<'_, F, C> {
    // Whether left is yes on the same day at a point that leads here.
    fn is_beside(&self, left: Place) -> bool
        ensures { result ≡ any self.now.findings.numbers.points (λ y. F.Floor.leads self.now.floor.now y left.point && says_yes (words_of self.now.findings left.line left.day y)) }
    {
        let words = self.findings.day_words(left);
        self.floor
            .before(left.point)
            .any(|y| word_at(words, y) % 2 == 1)
    }

    // The word of an entry, from left's words of the same day.
    pub(crate) fn near_word(&self, left: Place) -> u64
        ensures { result ≡ near_word self.now.findings.numbers.points (F.Floor.leads self.now.floor.now) (λ y. says_yes (words_of self.now.findings left.line left.day y)) left.point }
    {
        if self.findings.is_yes(left) {
            return 1;
        }
        if self.is_beside(left) {
            return 3;
        }
        0
    }
}
