// One point on all days: its words written to a line. These words stand as far apart as a day has points, and so each is reached by its
// index.
ghost use Rattle.std.specs.Prelude.{◌≡◌, ◌*◌, ◌<◌, length, slice_index};
ghost use Rattle.engine.specs.Filling.{Column, day_word};

// The word of so many days, where the number of days stands for none, as in `exploration.rt`.
fn day_word(days: usize, steps: u16) -> u32
    ensures { result ≡ day_word days steps }
{
    if (steps as usize) < days {
        return 2 * steps as u32 + 1;
    }
    0
}

// Writes the words at point x on each day from the fewest days, where the number of days stands for none.
pub(crate) fn write_column(steps: &[u16], points: usize, x: usize, line: &mut [u32])
    requires { (length line.old ≡ length steps.now * points) × (x < points) }
    ensures { Column points (length steps.now) x (λ d. day_word (length steps.now) (slice_index steps.now d)) line.old line.new }
{
    let days = steps.len();
    for d in 0..days {
        line[d * points + x] = day_word(days, steps[d]);
    }
}
