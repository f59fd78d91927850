// A lower line, as the lines above it read it. The words that are written stay beside it: a ghost field next to a `&mut` has no proof yet.
ghost use Rattle.std.specs.Prelude.{◌≡◌, ℕ, ◌+◌, ◌*◌, ◌<◌, ◌≤◌, length, slice_index};
ghost use Rattle.model.specs.Masks.{bit};
ghost use Rattle.engine.specs.Filling.{yes_at};

// The words of a line, day by day and point by point.
// A calendar within it was tried: then the kind X takes 2.8 times as long.
// Numbers below a count (a point, a day, an atom) are asked of each function that takes them: a type for them would be made and taken apart
// at each use.
#[derive(Drop)]
pub(crate) struct LowerLine<'a> {
    pub(crate) days: usize,
    pub(crate) points: usize,
    pub(crate) words: &'a [u32],
    ghost days_few: { days ≤ 64 },
    ghost points_few: { points ≤ 4096 },
    ghost held: { length words.now ≡ days * points },
}

impl<'a> LowerLine<'a> {
    // A line of a book whose lines have so many days and points.
    pub(crate) fn of_book(book: &'a [u32], line: usize, days: usize, points: usize) -> LowerLine<'a>
        requires few { (days ≤ 64) × (points ≤ 4096) }
        requires held { line * (days * points) + days * points ≤ length book.now }
        ensures within { (result.points ≡ points) × (result.days ≡ days) }
        ensures words { (k : ℕ) → k < days * points → slice_index result.words.now k ≡ slice_index book.now (line * (days * points) + k) }
    {
        let from = line * (days * points);
        let words = &book[from..from + days * points];
        LowerLine {
            days,
            points,
            words,
        }
    }

    // The words of day d.
    pub(crate) fn day(&self, d: usize) -> &'a [u32]
        requires { d < self.now.days }
        ensures size { length result.now ≡ self.now.points }
        ensures words { (x : ℕ) → x < self.now.points → slice_index result.now x ≡ slice_index self.now.words.now (d * self.now.points + x) }
    {
        let from = d * self.points;
        &self.words[from..from + self.points]
    }

    // Whether the line is yes on day d at point x.
    pub(crate) fn is_yes(&self, d: usize, x: usize) -> bool
        requires { (d < self.now.days) × (x < self.now.points) }
        ensures { result ≡ yes_at self.now.points self.now.words.now d x }
    {
        self.words[d * self.points + x] % 2 == 1
    }

    // The answers at point x, a bit for each day.
    pub(crate) fn answers(&self, x: usize) -> u64
        requires { x < self.now.points }
        ensures { (d : ℕ) → d < self.now.days → bit result d ≡ yes_at self.now.points self.now.words.now d x }
    {
        let mut answers: u64 = 0;
        for d in 0..self.days {
            if self.is_yes(d, x) {
                answers |= 1 << d;
            }
        }
        answers
    }

    // The words at point x on each day. They stand as far apart as a day has points, and so each is reached by its index.
    pub(crate) fn column(&self, x: usize) -> [u32; 64]
        requires { x < self.now.points }
        ensures { (d : ℕ) → d < self.now.days → slice_index result d ≡ slice_index self.now.words.now (d * self.now.points + x) }
    {
        let mut column = [0; 64];
        for d in 0..self.days {
            column[d] = self.words[d * self.points + x];
        }
        column
    }
}
