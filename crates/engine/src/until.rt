// The kind U: on some run left is yes until right is; yes by the fewest days.
ghost use Rattle.std.specs.Prelude.{◌≡◌, ℕ, ◌*◌, ◌<◌, ◌≤◌, length};
ghost use Rattle.model.specs.Masks.{bit};
ghost use Rattle.model.specs.Table.{until_word};
ghost use Rattle.engine.specs.Filling.{Made, in_order, yes_at, Column};

use crate::column::write_column;
use crate::day_answers::DayAnswers;
use crate::exploration::{Room, explore};
use crate::lower_line::LowerLine;
use model::{Calendar, Floor};

impl LowerLine<'_> {
    // The answers at point x, which are not read where right is yes on no day.
    fn answers_until(&self, x: usize, right: u64) -> u64
        requires { x < self.now.points }
        ensures { 1 ≤ right → (d : ℕ) → d < self.now.days → bit result d ≡ yes_at self.now.points self.now.words.now d x }
    {
        if right == 0 {
            return 0;
        }
        self.answers(x)
    }

    // The words at one point.
    fn until_point<C: Calendar>(
        &self,
        calendar: &C,
        right: &Self,
        x: usize,
        line: &mut [u32],
        room: &mut Room,
    )
        requires days { C.Floor.points calendar.now ≡ self.now.days }
        requires same { (right.now.points ≡ self.now.points) × (right.now.days ≡ self.now.days) }
        requires point { x < self.now.points }
        requires size { length line.old ≡ C.Floor.points calendar.now * self.now.points }
        ensures { Column self.now.points (C.Floor.points calendar.now) x (until_word (C.Floor.points calendar.now) (C.Floor.leads calendar.now) (λ e. yes_at self.now.points self.now.words.now e x) (λ e. yes_at self.now.points right.now.words.now e x)) line.old line.new }
    {
        let right = right.answers(x);
        let left = self.answers_until(x, right);
        explore(calendar, &DayAnswers { left, right }, room);
        let days = calendar.count();
        write_column(&room.steps[..days], self.points, x, line);
    }

    // The words at every point, where this line is left.
    pub(crate) fn fill_until<C: Calendar>(
        &self,
        calendar: &C,
        right: &Self,
        line: &mut [u32],
        room: &mut Room,
    )
        requires days { C.Floor.points calendar.now ≡ self.now.days }
        requires same { (right.now.points ≡ self.now.points) × (right.now.days ≡ self.now.days) }
        requires size { length line.old ≡ C.Floor.points calendar.now * self.now.points }
        ensures { Made (in_order self.now.points (λ d x. until_word (C.Floor.points calendar.now) (C.Floor.leads calendar.now) (λ e. yes_at self.now.points self.now.words.now e x) (λ e. yes_at self.now.points right.now.words.now e x) d)) line.new }
    {
        for x in 0..self.points {
            self.until_point(calendar, right, x, line, room);
        }
    }
}
