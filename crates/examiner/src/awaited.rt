// The kind F: yes where left is yes, and where every next day is yes, one step further than the highest of them.
ghost use Rattle.std.specs.Prelude.{◌≡◌, not, ◌||◌, if◌then◌else◌, Some, None};
ghost use Rattle.model.specs.Entries.{awaited_entry};
ghost use Rattle.model.specs.Numbers.{every, highest};
ghost use Rattle.model.specs.Table.{says_yes, number};
ghost use Rattle.examiner.specs.Read.{words_of};

use crate::examination::Examination;
use model::{Calendar, Floor, Place};

impl<F: Floor, C: Calendar> Examination<'_, F, C> {
    // The highest number of the line `own` at the point on the next days; none where one of them is no: a `for` that returns says plainer than
    // `try_fold` what ends it.
    fn highest_wait(&self, own: Place) -> Option<u32>
        ensures { result ≡ (if every self.now.findings.numbers.days (λ e. not (C.Floor.leads self.now.calendar.now own.day e) || says_yes (words_of self.now.findings own.line e own.point)) then Some (highest self.now.findings.numbers.days (λ e. C.Floor.leads self.now.calendar.now own.day e) (λ e. number (words_of self.now.findings own.line e own.point))) else None) }
    {
        let words = self.findings.point_words(own);
        let mut highest: u32 = 0;
        for e in self.calendar.after(own.day) {
            let word = words.word(e);
            if word % 2 == 0 {
                return None;
            }
            highest = highest.max(word / 2);
        }
        Some(highest)
    }

    // The word that the entry rule wants of the entry `own`.
    pub(crate) fn awaited_word(&self, left: Place, own: Place) -> u64
        requires { left.day ≡ own.day }
        ensures { result ≡ awaited_entry self.now.findings.numbers.days (C.Floor.leads self.now.calendar.now) (λ e. says_yes (words_of self.now.findings left.line e left.point)) (λ e. words_of self.now.findings own.line e own.point) own.day }
    {
        if self.findings.is_yes(left) {
            return 1;
        }
        match self.highest_wait(own) {
            Some(k) => 2 * (1 + k as u64) + 1,
            None => 0,
        }
    }
}
