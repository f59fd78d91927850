// Open and work: a survey begins without lines, and every entry is written.
ghost use Rattle.std.specs.Prelude.{◌≡◌, ◌*◌, ◌≤◌, length, IfOk, Some, None, MatchResult, OnErr, OnOk};
ghost use Rattle.std.specs.Result.{result_err};
ghost use Rattle.model.specs.Books.{model_of, WorkedOut};
ghost use Rattle.model.specs.Calls.{open_refusal};
ghost use Rattle.model.specs.Refusals.{whole_refusal};
ghost use Rattle.engine.specs.Filling.{Written};

use crate::book::fill_book;
use crate::survey::{Open, Worked};
use model::{Calendar, Floor, Line, Refusal, SurveyNumbers};

// Whether a survey of so many points and days can be opened on books of these lengths, or why not.
fn check_open(points: usize, days: usize, readings: usize, lines: usize) -> Result<(), Refusal>
    requires { points ≤ 4096 }
    ensures { result_err result ≡ open_refusal points days readings lines }
{
    if days > 64 {
        return Err(Refusal::CalendarSize);
    }
    if readings < days * points || lines < 64 {
        return Err(Refusal::ShortBook);
    }
    Ok(())
}

impl Open {
    // An open survey of the floor and the calendar, every reading no and without lines.
    pub fn open<F: Floor, C: Calendar>(
        floor: &F,
        calendar: &C,
        readings: &mut [u32],
        lines: &[Line],
    ) -> Result<Open, Refusal>
        ensures refusal { result_err result ≡ open_refusal (F.Floor.points floor.now) (C.Floor.points calendar.now) (length readings.old) (length lines.now) }
        ensures points { IfOk result (λ o. o.numbers.points ≡ F.Floor.points floor.now) }
        ensures days { IfOk result (λ o. o.numbers.days ≡ C.Floor.points calendar.now) }
        ensures lines { IfOk result (λ o. o.numbers.lines ≡ 0) }
        ensures cleared { OnOk result (Written 0 (C.Floor.points calendar.now * F.Floor.points floor.now) (λ _. 0) readings.old readings.new) }
        ensures kept { OnErr result (readings.new ≡ readings.old) }
    {
        let points = floor.count();
        let days = calendar.count();
        check_open(points, days, readings.len(), lines.len())?;
        readings[..days * points].fill(0);
        let numbers = SurveyNumbers {
            points,
            days,
            lines: 0,
        };
        Ok(Open { numbers })
    }

    // Writes every entry and turns the survey into a worked one; hands the open one back where it is refused. Floor, calendar and books are
    // taken one by one: a rule of the project.
    pub fn work<F: Floor, C: Calendar>(
        self,
        floor: &F,
        calendar: &C,
        readings: &[u32],
        lines: &[Line],
        findings: &mut [u32],
    ) -> Result<Worked, (Open, Refusal)>
        ensures refusal { MatchResult result (λ w. whole_refusal self.numbers.points self.numbers.days self.numbers.lines (F.Floor.points floor.now) (C.Floor.points calendar.now) (length readings.now) lines.now (length findings.old) ≡ None) (λ e. whole_refusal self.numbers.points self.numbers.days self.numbers.lines (F.Floor.points floor.now) (C.Floor.points calendar.now) (length readings.now) lines.now (length findings.old) ≡ Some e.1) }
        ensures numbers { MatchResult result (λ w. w.numbers ≡ self.numbers) (λ e. e.0 ≡ self) }
        ensures worked { OnOk result (WorkedOut (model_of (F.Floor.points floor.now) (F.Floor.leads floor.now) (C.Floor.points calendar.now) (C.Floor.leads calendar.now) readings.now) lines.now self.numbers.lines findings.old findings.new) }
        ensures kept { OnErr result (findings.new ≡ findings.old) }
    {
        let numbers = self.numbers;
        match fill_book(numbers, floor, calendar, readings, lines, findings) {
            Ok(()) => Ok(Worked { numbers }),
            // the open survey is handed back: a rule of the project
            Err(why) => Err((self, why)),
        }
    }
}
