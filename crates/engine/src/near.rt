// The kind N: left is yes here or at a point that leads here. Each word is written by its index, since a proof loses what is written
// through `iter_mut`.
ghost use Rattle.std.specs.Prelude.{◌≡◌, ◌*◌, ◌<◌, length, slice_index};
ghost use Rattle.model.specs.Numbers.{any};
ghost use Rattle.model.specs.Table.{says_yes, near_word};
ghost use Rattle.engine.specs.Filling.{Made, in_order, yes_at};

use crate::lower_line::LowerLine;
use model::Floor;

// The word at point x, from left's words of the same day.
fn near_word<F: Floor>(floor: &F, left: &[u32], x: usize) -> u32
    requires { (length left.now ≡ F.Floor.points floor.now) × (x < F.Floor.points floor.now) }
    ensures { result ≡ near_word (F.Floor.points floor.now) (F.Floor.leads floor.now) (λ y. says_yes (slice_index left.now y)) x }
{
    if left[x] % 2 == 1 {
        return 1;
    }
    let near = floor.before(x).any(|y| left[y] % 2 == 1);
    3 * u32::from(near)
}

// Whether left is yes at some point.
fn has_yes(left: &[u32]) -> bool
    ensures { result ≡ any (length left.now) (λ y. says_yes (slice_index left.now y)) }
{
    left.iter().any(|word| word % 2 == 1)
}

// The words of one day.
fn near_day<F: Floor>(floor: &F, left: &[u32], line: &mut [u32])
    requires { (length left.now ≡ F.Floor.points floor.now) × (length line.old ≡ F.Floor.points floor.now) }
    ensures { Made (near_word (F.Floor.points floor.now) (F.Floor.leads floor.now) (λ y. says_yes (slice_index left.now y))) line.new }
{
    if !has_yes(left) {
        line.fill(0);
        return;
    }
    for x in 0..line.len() {
        line[x] = near_word(floor, left, x);
    }
}

impl LowerLine<'_> {
    // The words of every day, where this line is left. A day's part is cut out by hand, since a proof loses what is written through
    // `chunks_mut`.
    pub(crate) fn fill_near<F: Floor>(&self, floor: &F, line: &mut [u32])
        requires points { F.Floor.points floor.now ≡ self.now.points }
        requires size { length line.old ≡ self.now.days * self.now.points }
        ensures { Made (in_order self.now.points (λ d. near_word (F.Floor.points floor.now) (F.Floor.leads floor.now) (yes_at self.now.points self.now.words.now d))) line.new }
    {
        for d in 0..self.days {
            let from = d * self.points;
            near_day(floor, self.day(d), &mut line[from..from + self.points]);
        }
    }
}
