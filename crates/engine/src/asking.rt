// Ask and show: the yes or no and the number of one entry, and what proves it.
ghost use Rattle.std.specs.Prelude.{◌≡◌, ◌*◌, ◌<◌, ◌≤◌, length};
ghost use Rattle.std.specs.Result.{result_err};
ghost use Rattle.model.specs.Books.{finding_in};
ghost use Rattle.model.specs.Calls.{answer, ask_refusal, finding_of};
ghost use Rattle.model.specs.Showing.{Shown};

use crate::showing::Asked;
use crate::survey::Worked;
use model::{Calendar, Finding, Floor, Line, Place, Refusal, SurveyNumbers};

// Whether there is such an entry in a findings book of that length, or why not.
pub(crate) fn check_entry(numbers: SurveyNumbers, held: usize, at: Place) -> Result<(), Refusal>
    ensures { result_err result ≡ ask_refusal numbers.points numbers.days numbers.lines held at.line at.day at.point }
{
    if held < numbers.lines * numbers.size() {
        return Err(Refusal::ShortBook);
    }
    if at.line >= numbers.lines || at.day >= numbers.days || at.point >= numbers.points {
        return Err(Refusal::OutOfRange);
    }
    Ok(())
}

// The word of an entry.
pub(crate) fn word_at(numbers: SurveyNumbers, findings: &[u32], at: Place) -> u32
    requires { (numbers.lines * (numbers.days * numbers.points) ≤ length findings.now) × ((at.line < numbers.lines) × ((at.day < numbers.days) × (at.point < numbers.points))) }
    ensures { result ≡ finding_in findings.now numbers.points numbers.days at.line at.day at.point }
{
    findings[(at.line * numbers.days + at.day) * numbers.points + at.point]
}

impl Worked {
    // The yes or no and the number of one entry, by the findings book's word.
    pub fn ask(
        &self,
        findings: &[u32],
        line: usize,
        day: usize,
        point: usize,
    ) -> Result<Finding, Refusal>
        ensures { result ≡ answer (ask_refusal self.now.numbers.points self.now.numbers.days self.now.numbers.lines (length findings.now) line day point) (finding_of (finding_in findings.now self.now.numbers.points self.now.numbers.days line day point)) }
    {
        let at = Place { line, day, point };
        check_entry(self.numbers, findings.len(), at)?;
        Ok(Finding::from(word_at(self.numbers, findings, at)))
    }

    // Writes to the strip what proves an entry, by the findings book's words, and answers how many numbers it wrote. Floor, calendar and
    // books are taken one by one: a rule of the project.
    pub fn show<F: Floor, C: Calendar>(
        &self,
        floor: &F,
        calendar: &C,
        lines: &[Line],
        findings: &[u32],
        line: usize,
        day: usize,
        point: usize,
        strip: &mut [u32],
    ) -> Result<usize, Refusal>
        ensures { Shown self.now.numbers.points self.now.numbers.days self.now.numbers.lines (F.Floor.points floor.now) (F.Floor.leads floor.now) (C.Floor.points calendar.now) (C.Floor.leads calendar.now) lines.now findings.now line day point strip.old strip.new result }
    {
        let asked = Asked {
            numbers: self.numbers,
            floor,
            calendar,
            lines,
            findings,
            at: Place { line, day, point },
        };
        asked.show(strip)
    }
}
