// All entries of a survey: first whether they can be filled in, then every word of the findings book.
ghost use Rattle.std.specs.Prelude.{◌≡◌, length, None, OnErr, OnOk};
ghost use Rattle.std.specs.Result.{result_err};
ghost use Rattle.model.specs.Books.{model_of, WorkedOut};
ghost use Rattle.model.specs.Refusals.{whole_refusal};

use crate::exploration::Room;
use crate::filling::Store;
use model::{Calendar, Floor, Line, Refusal, SurveyNumbers, check_whole};

// Writes every entry, where everything is in order for it.
fn fill_entries<F: Floor, C: Calendar>(
    numbers: SurveyNumbers,
    floor: &F,
    calendar: &C,
    readings: &[u32],
    lines: &[Line],
    findings: &mut [u32],
)
    requires { whole_refusal numbers.points numbers.days numbers.lines (F.Floor.points floor.now) (C.Floor.points calendar.now) (length readings.now) lines.now (length findings.old) ≡ None }
    ensures { WorkedOut (model_of (F.Floor.points floor.now) (F.Floor.leads floor.now) (C.Floor.points calendar.now) (C.Floor.leads calendar.now) readings.now) lines.now numbers.lines findings.old findings.new }
{
    let store = Store {
        floor,
        calendar,
        readings,
    };
    store.fill_lines(lines, numbers.lines, findings, &mut Room::new());
}

// Writes every entry of a survey of so many points, days and lines; a refusal changes nothing. Floor, calendar and books are taken one by
// one: a rule of the project.
pub(crate) fn fill_book<F: Floor, C: Calendar>(
    numbers: SurveyNumbers,
    floor: &F,
    calendar: &C,
    readings: &[u32],
    lines: &[Line],
    findings: &mut [u32],
) -> Result<(), Refusal>
    ensures refusal { result_err result ≡ whole_refusal numbers.points numbers.days numbers.lines (F.Floor.points floor.now) (C.Floor.points calendar.now) (length readings.now) lines.now (length findings.old) }
    ensures worked { OnOk result (WorkedOut (model_of (F.Floor.points floor.now) (F.Floor.leads floor.now) (C.Floor.points calendar.now) (C.Floor.leads calendar.now) readings.now) lines.now numbers.lines findings.old findings.new) }
    ensures kept { OnErr result (findings.new ≡ findings.old) }
{
    check_whole(numbers, floor, calendar, readings, lines, findings)?;
    fill_entries(numbers, floor, calendar, readings, lines, findings);
    Ok(())
}
