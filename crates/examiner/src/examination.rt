// The examination of a whole findings book.
ghost use Rattle.std.specs.Prelude.{◌≡◌, ◌+◌, ◌*◌, length, None};
ghost use Rattle.model.specs.Books.{model_of, reading_in};
ghost use Rattle.model.specs.Examining.{Examined};
ghost use Rattle.model.specs.Refusals.{whole_refusal};

use crate::words::{Findings, has_bit, word_at, words_from};
use model::{Calendar, Floor, Line, Place, SurveyNumbers, Verdict, check_whole};

// All that an examination reads. Floor and calendar have the counts of the survey by which the findings book is read.
#[derive(Drop)]
pub(crate) struct Examination<'a, F: Floor, C: Calendar> {
    pub(crate) floor: &'a F,
    pub(crate) calendar: &'a C,
    pub(crate) readings: &'a [u32],
    pub(crate) findings: Findings<'a>,
    ghost points: { F.Floor.points floor.now ≡ findings.numbers.points },
    ghost days: { C.Floor.points calendar.now ≡ findings.numbers.days },
}

impl<F: Floor, C: Calendar> Examination<'_, F, C> {
    // The reading of an atom on the day and at the point of a place.
    pub(crate) fn reading(&self, atom: u32, at: Place) -> bool
        ensures { result ≡ reading_in self.now.readings.now self.now.findings.numbers.points at.day at.point atom }
    {
        let before = at.day.saturating_mul(self.findings.numbers.points);
        has_bit(word_at(words_from(self.readings, before), at.point), atom)
    }
}

// Examines every entry, where everything is in order for it. Floor, calendar and books are taken one by one, here and below: a rule of the
// project.
fn examine_entries<F: Floor, C: Calendar>(
    numbers: SurveyNumbers,
    floor: &F,
    calendar: &C,
    readings: &[u32],
    lines: &[Line],
    findings: &[u32],
) -> Verdict
    requires { whole_refusal numbers.points numbers.days numbers.lines (F.Floor.points floor.now) (C.Floor.points calendar.now) (length readings.now) lines.now (length findings.now) ≡ None }
    ensures { Examined None (model_of (F.Floor.points floor.now) (F.Floor.leads floor.now) (C.Floor.points calendar.now) (C.Floor.leads calendar.now) readings.now) lines.now numbers.lines findings.now result }
{
    let findings = Findings {
        words: findings,
        numbers,
    };
    let examination = Examination {
        floor,
        calendar,
        readings,
        findings,
    };
    match examination.false_line(lines) {
        Some(place) => Verdict::FalseAt(place),
        None => Verdict::Accepted,
    }
}

// Says of a findings book of any origin whether every entry is as the entry rule wants it, or which is the first that is not; refused where
// not everything is in order for it.
pub fn examine<F: Floor, C: Calendar>(
    numbers: SurveyNumbers,
    floor: &F,
    calendar: &C,
    readings: &[u32],
    lines: &[Line],
    findings: &[u32],
) -> Verdict
    ensures { Examined (whole_refusal numbers.points numbers.days numbers.lines (F.Floor.points floor.now) (C.Floor.points calendar.now) (length readings.now) lines.now (length findings.now)) (model_of (F.Floor.points floor.now) (F.Floor.leads floor.now) (C.Floor.points calendar.now) (C.Floor.leads calendar.now) readings.now) lines.now numbers.lines findings.now result }
{
    if let Err(why) = check_whole(numbers, floor, calendar, readings, lines, findings) {
        return Verdict::Refused(why);
    }
    examine_entries(numbers, floor, calendar, readings, lines, findings)
}
