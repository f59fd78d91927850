// Phrase: one line more.
ghost use Rattle.std.specs.Prelude.{◌≡◌, ◌+◌, length, slice_set};
ghost use Rattle.std.specs.Result.{result_err};
ghost use Rattle.model.specs.Calls.{answer, unless_refused, phrase_refusal};

use crate::survey::Open;
use model::{Line, Refusal, SurveyNumbers, check_line};

// Whether the line can be the next one in a lines book of that length, or why not.
fn check_phrase(held: usize, count: usize, line: Line) -> Result<(), Refusal>
    ensures { result_err result ≡ phrase_refusal held count line }
{
    if held < 64 {
        return Err(Refusal::ShortBook);
    }
    if count >= 64 {
        return Err(Refusal::LinesFull);
    }
    check_line(count, line)
}

impl Open {
    // Appends a line and answers its number.
    pub fn phrase(
        &mut self,
        lines: &mut [Line],
        kind: u8,
        left: u32,
        right: u32,
    ) -> Result<usize, Refusal>
        ensures result { result ≡ answer (phrase_refusal (length lines.old) self.old.numbers.lines (record { kind = kind; left = left; right = right })) self.old.numbers.lines }
        ensures book { lines.new ≡ unless_refused (phrase_refusal (length lines.old) self.old.numbers.lines (record { kind = kind; left = left; right = right })) (slice_set lines.old self.old.numbers.lines (record { kind = kind; left = left; right = right })) lines.old }
        ensures points { self.new.numbers.points ≡ self.old.numbers.points }
        ensures days { self.new.numbers.days ≡ self.old.numbers.days }
        ensures lines { self.new.numbers.lines ≡ unless_refused (phrase_refusal (length lines.old) self.old.numbers.lines (record { kind = kind; left = left; right = right })) (self.old.numbers.lines + 1) self.old.numbers.lines }
    {
        let count = self.numbers.lines;
        let line = Line { kind, left, right };
        check_phrase(lines.len(), count, line)?;
        lines[count] = line;
        self.numbers = SurveyNumbers {
            points: self.numbers.points,
            days: self.numbers.days,
            lines: count + 1,
        };
        Ok(count)
    }
}
