// The kind F: every run meets a day with left yes; yes by the least number of steps that is enough. Each wait is written by its index, since
// a proof loses what is written through `iter_mut`.
ghost use Rattle.std.specs.Prelude.{◌≡◌, ℕ, ◌*◌, ◌<◌, ◌≤◌, length, if◌then◌else◌, slice_index};
ghost use Rattle.model.specs.Table.{awaited_word};
ghost use Rattle.engine.specs.Filling.{Made, in_order, yes_at, Column};

use crate::awaited::settle;
use crate::column::write_column;
use crate::exploration::Room;
use crate::lower_line::LowerLine;
use model::{Calendar, Floor};

// The mark of a day: 0 for a yes, and the count of days for a no.
fn mark_of(yes: bool, days: usize) -> u16
    requires { days ≤ 64 }
    ensures { result ≡ (if yes then 0 else days) }
{
    if yes { 0 } else { days as u16 }
}

impl LowerLine<'_> {
    // Marks the days on which the line is yes at point x with 0, and the others with the count of days.
    fn mark(&self, x: usize, waits: &mut [u16])
        requires { (x < self.now.points) × (length waits.old ≡ self.now.days) }
        ensures { (d : ℕ) → d < length waits.old → slice_index waits.new d ≡ (if yes_at self.now.points self.now.words.now d x then 0 else length waits.old) }
    {
        let days = waits.len();
        for d in 0..days {
            waits[d] = mark_of(self.is_yes(d, x), days);
        }
    }

    // The words at one point. The waits are only for its own use.
    fn future_point<C: Calendar>(&self, calendar: &C, x: usize, line: &mut [u32], waits: &mut [u16])
        requires days { C.Floor.points calendar.now ≡ self.now.days }
        requires point { x < self.now.points }
        requires size { (length line.old ≡ C.Floor.points calendar.now * self.now.points) × (length waits.old ≡ C.Floor.points calendar.now) }
        ensures { Column self.now.points (C.Floor.points calendar.now) x (awaited_word (C.Floor.points calendar.now) (C.Floor.leads calendar.now) (λ e. yes_at self.now.points self.now.words.now e x)) line.old line.new }
    {
        self.mark(x, waits);
        settle(calendar, waits);
        write_column(waits, self.points, x, line);
    }

    // The words at every point, where this line is left.
    pub(crate) fn fill_future<C: Calendar>(&self, calendar: &C, line: &mut [u32], room: &mut Room)
        requires days { C.Floor.points calendar.now ≡ self.now.days }
        requires size { length line.old ≡ C.Floor.points calendar.now * self.now.points }
        ensures { Made (in_order self.now.points (λ d x. awaited_word (C.Floor.points calendar.now) (C.Floor.leads calendar.now) (λ e. yes_at self.now.points self.now.words.now e x) d)) line.new }
    {
        let waits = &mut room.steps[..calendar.count()];
        for x in 0..self.points {
            self.future_point(calendar, x, line, waits);
        }
    }
}
