// The numbers of a survey, open or worked.
ghost use Rattle.std.specs.Prelude.{◌≡◌, ◌*◌, ◌≤◌, Some};

use std::fmt;

// How many points, days and lines a survey has: 1 to 4,096 points, 1 to 64 days, at most 64 lines.
#[derive(Clone, Copy)]
pub struct SurveyNumbers {
    pub points: usize,
    pub days: usize,
    pub lines: usize,
    ghost somepoints: { 1 ≤ points },
    ghost fewpoints: { points ≤ 4096 },
    ghost somedays: { 1 ≤ days },
    ghost fewdays: { days ≤ 64 },
    ghost fewlines: { lines ≤ 64 },
}

impl SurveyNumbers {
    // How many entries each line has: one for each day and point.
    pub fn size(self) -> usize
        ensures { result ≡ self.days * self.points }
    {
        self.points * self.days
    }
}

impl fmt::Display for SurveyNumbers {
    ghost use Rattle.model.specs.Printing.{numbers_text};

    ghost output = { λ numbers. Some (numbers_text numbers) };

    fn fmt<W: fmt::Write>(&self, f: &mut fmt::Formatter<W>) -> fmt::Result {
        let points = self.points;
        let days = self.days;
        let lines = self.lines;
        write!(f, "points {points}, days {days}, lines {lines}")
    }
}
