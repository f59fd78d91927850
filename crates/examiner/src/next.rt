// The kind X: left is yes at the point on some next day.
ghost use Rattle.std.specs.Prelude.{◌≡◌, ◌&&◌};
ghost use Rattle.model.specs.Numbers.{any};
ghost use Rattle.model.specs.Table.{word, says_yes};
ghost use Rattle.examiner.specs.Read.{words_of};

use crate::examination::Examination;
use model::{Calendar, Floor, Place};

impl<F: Floor, C: Calendar> Examination<'_, F, C> {
    // Whether left is yes at the same point on a next day.
    fn is_ahead(&self, left: Place) -> bool
        ensures { result ≡ any self.now.findings.numbers.days (λ e. C.Floor.leads self.now.calendar.now left.day e && says_yes (words_of self.now.findings left.line e left.point)) }
    {
        let words = self.findings.point_words(left);
        self.calendar
            .after(left.day)
            .any(|e| words.word(e) % 2 == 1)
    }

    // The word of an entry, from left's words at the same point.
    pub(crate) fn next_word(&self, left: Place) -> u64
        ensures { result ≡ word (any self.now.findings.numbers.days (λ e. C.Floor.leads self.now.calendar.now left.day e && says_yes (words_of self.now.findings left.line e left.point))) 0 }
    {
        self.is_ahead(left) as u64
    }
}
