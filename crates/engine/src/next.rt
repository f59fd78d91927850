// The kind X: left is yes at the point on some next day. Each word is written by its index, since a proof loses what is written through
// `iter_mut`.
ghost use Rattle.std.specs.Prelude.{◌≡◌, ◌*◌, ◌<◌, length};
ghost use Rattle.engine.specs.Filling.{Made, in_order, next_word, yes_at};

use crate::lower_line::LowerLine;
use model::{Calendar, Floor};

impl LowerLine<'_> {
    // The word of day d at point x.
    fn next_word<C: Calendar>(&self, calendar: &C, d: usize, x: usize) -> u32
        requires days { C.Floor.points calendar.now ≡ self.now.days }
        requires point { x < self.now.points }
        ensures { result ≡ next_word (C.Floor.points calendar.now) (C.Floor.leads calendar.now) (λ e. yes_at self.now.points self.now.words.now e x) d }
    {
        u32::from(calendar.after(d).any(|e| self.is_yes(e, x)))
    }

    // The words of one day.
    fn next_day<C: Calendar>(&self, calendar: &C, d: usize, line: &mut [u32])
        requires days { C.Floor.points calendar.now ≡ self.now.days }
        requires size { length line.old ≡ self.now.points }
        ensures { Made (λ x. next_word (C.Floor.points calendar.now) (C.Floor.leads calendar.now) (λ e. yes_at self.now.points self.now.words.now e x) d) line.new }
    {
        for x in 0..line.len() {
            line[x] = self.next_word(calendar, d, x);
        }
    }

    // The words of every day, where this line is left. A day's part is cut out by hand, since a proof loses what is written through
    // `chunks_mut`.
    pub(crate) fn fill_next<C: Calendar>(&self, calendar: &C, line: &mut [u32])
        requires days { C.Floor.points calendar.now ≡ self.now.days }
        requires size { length line.old ≡ C.Floor.points calendar.now * self.now.points }
        ensures { Made (in_order self.now.points (λ d x. next_word (C.Floor.points calendar.now) (C.Floor.leads calendar.now) (λ e. yes_at self.now.points self.now.words.now e x) d)) line.new }
    {
        for d in 0..calendar.count() {
            let from = d * self.points;
            self.next_day(calendar, d, &mut line[from..from + self.points]);
        }
    }
}
