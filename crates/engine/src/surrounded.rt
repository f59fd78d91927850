// The kind S: a region of left, bordered by right, holds the point; no by the steps of the shortest way out.
ghost use Rattle.std.specs.Prelude.{◌≡◌, ◌*◌, ◌≤◌, true, not, length, slice_index};
ghost use Rattle.model.specs.Table.{says_yes, surrounded_word};
ghost use Rattle.engine.specs.Filling.{Made, in_order, way_word, yes_at};

use crate::exploration::{Room, Rules, explore};
use crate::lower_line::LowerLine;
use crate::words::is_yes;
use model::Floor;

// Ways out: from any point, through points with right no, to one with left no. The two parts are left's and right's words of one day.
#[derive(Clone, Copy)]
pub(crate) struct WaysOut<'a, 'b> {
    pub(crate) left: &'a [u32],
    pub(crate) right: &'b [u32],
}

impl Rules for WaysOut<'_, '_> {
    ghost goal = { λ s y. not (says_yes (slice_index s.left.now y)) };

    ghost leave = { λ s y. true };

    ghost enter = { λ s y. not (says_yes (slice_index s.right.now y)) };

    fn is_goal(&self, x: usize) -> bool {
        !is_yes(self.left, x)
    }

    fn may_leave(&self, _x: usize) -> bool {
        true
    }

    fn may_enter(&self, x: usize) -> bool {
        !is_yes(self.right, x)
    }
}

// The word of so many steps out. `day_word` (`column.rt`) is its like: there a number means yes, and none is 0.
fn way_word(points: usize, steps: u16) -> u32
    ensures { result ≡ way_word points steps }
{
    if (steps as usize) < points {
        return 2 * steps as u32;
    }
    1
}

// Writes the words of one day from the steps of the shortest ways out, where the number of points stands for none. Each word is written by
// its index, since a proof loses what is written through `iter_mut`.
fn write_ways(steps: &[u16], line: &mut [u32])
    requires { length line.old ≤ length steps.now }
    ensures { Made (λ x. way_word (length line.old) (slice_index steps.now x)) line.new }
{
    let points = line.len();
    for x in 0..points {
        line[x] = way_word(points, steps[x]);
    }
}

// The words of one day.
fn surrounded_day<F: Floor>(
    floor: &F,
    left: &[u32],
    right: &[u32],
    line: &mut [u32],
    room: &mut Room,
)
    requires { length line.old ≡ F.Floor.points floor.now }
    ensures { Made (surrounded_word (F.Floor.points floor.now) (F.Floor.leads floor.now) (λ y. says_yes (slice_index left.now y)) (λ y. says_yes (slice_index right.now y))) line.new }
{
    explore(floor, &WaysOut { left, right }, room);
    write_ways(&room.steps, line);
}

impl LowerLine<'_> {
    // The words of every day, where this line is left. A day's part is cut out by hand, since a proof loses what is written through
    // `chunks_mut`.
    pub(crate) fn fill_surrounded<F: Floor>(
        &self,
        floor: &F,
        right: &Self,
        line: &mut [u32],
        room: &mut Room,
    )
        requires points { F.Floor.points floor.now ≡ self.now.points }
        requires same { (right.now.points ≡ self.now.points) × (right.now.days ≡ self.now.days) }
        requires size { length line.old ≡ self.now.days * self.now.points }
        ensures { Made (in_order self.now.points (λ d. surrounded_word (F.Floor.points floor.now) (F.Floor.leads floor.now) (yes_at self.now.points self.now.words.now d) (yes_at self.now.points right.now.words.now d))) line.new }
    {
        for d in 0..self.days {
            let from = d * self.points;
            let row = &mut line[from..from + self.points];
            surrounded_day(floor, self.day(d), right.day(d), row, room);
        }
    }
}
