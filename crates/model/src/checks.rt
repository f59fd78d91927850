// Checks that several calls share: whether lines are lawful, and whether everything is in order for all entries of a survey.
ghost use Rattle.std.specs.Prelude.{◌≡◌, length};
ghost use Rattle.std.specs.Result.{result_err};
ghost use Rattle.model.specs.Lines.{operand_ok};
ghost use Rattle.model.specs.Refusals.{line_refusal, lines_refusal, whole_refusal};

use crate::calendar::Calendar;
use crate::floor::Floor;
use crate::kind::{Operand, kind_row};
use crate::line::Line;
use crate::refusal::Refusal;
use crate::survey_numbers::SurveyNumbers;

// Whether the operand of line i is as its kind wants it.
fn is_operand(operand: Operand, i: usize, value: u32) -> bool
    ensures { result ≡ operand_ok operand i value }
{
    match operand {
        Operand::Unused => value == 0,
        Operand::Atom => value < 32,
        Operand::Lower => (value as usize) < i,
    }
}

// Whether line i is lawful, or why not.
pub fn check_line(i: usize, line: Line) -> Result<(), Refusal>
    ensures { result_err result ≡ line_refusal i line }
{
    let row = kind_row(line.kind).ok_or(Refusal::NoKind)?;
    if is_operand(row.left, i, line.left) && is_operand(row.right, i, line.right) {
        return Ok(());
    }
    Err(Refusal::BadOperand)
}

// Whether the first `count` lines are lawful, or why the first bad one is not; past the end of the book a line is of no kind, and so the
// numbers are gone through and not the lines.
pub fn check_lines(lines: &[Line], count: usize) -> Result<(), Refusal>
    ensures { result_err result ≡ lines_refusal lines.now count }
{
    for i in 0..count {
        let Some(line) = lines.get(i) else {
            return Err(Refusal::NoKind);
        };
        check_line(i, *line)?;
    }
    Ok(())
}

// Whether the entries of a survey can all be worked or examined, or why not: a count that differs, a short book, no lines, or the first
// bad line. Floor, calendar and books are taken one by one: a rule of the project. Showing checks others of them, in the same order.
pub fn check_whole<F: Floor, C: Calendar>(
    numbers: SurveyNumbers,
    floor: &F,
    calendar: &C,
    readings: &[u32],
    lines: &[Line],
    findings: &[u32],
) -> Result<(), Refusal>
    ensures { result_err result ≡ whole_refusal numbers.points numbers.days numbers.lines (F.Floor.points floor.now) (C.Floor.points calendar.now) (length readings.now) lines.now (length findings.now) }
{
    if floor.count() != numbers.points || calendar.count() != numbers.days {
        return Err(Refusal::OtherCounts);
    }
    let size = numbers.size();
    if readings.len() < size || lines.len() < 64 || findings.len() < numbers.lines * size {
        return Err(Refusal::ShortBook);
    }
    if numbers.lines == 0 {
        return Err(Refusal::NoLines);
    }
    check_lines(lines, numbers.lines)
}
