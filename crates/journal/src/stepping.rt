// One event on a survey, through the calls themselves. Each state has its own arms, also for examining, since each hands itself back. The
// books are lent one by one (`replaying.rt` says why).
ghost use Rattle.journal.specs.Worlds.{world_of, Performs};

use crate::event::{Answer, Event};
use crate::survey::Survey;
use engine::{Open, Worked};
use examiner::examine;
use model::{Calendar, Floor, Line};

// An event on an open survey; the survey as it was where the event does not fit.
fn step_open<F: Floor, C: Calendar>(
    mut open: Open,
    floor: &F,
    calendar: &C,
    readings: &mut [u32],
    lines: &mut [Line],
    findings: &mut [u32],
    strip: &mut [u32],
    event: Event<'_>,
) -> Result<(Survey, Answer), Survey>
    ensures { Performs (F.Floor.points floor.now) (F.Floor.leads floor.now) (C.Floor.points calendar.now) (C.Floor.leads calendar.now) (world_of (Survey.Open «open») readings.old lines.old findings.old strip.old) event.entry (λ s. world_of s readings.new lines.new findings.new strip.new) result }
{
    match event {
        Event::Record(at, value) => {
            let answer = open.record(readings, at.day, at.point, at.atom, value);
            Ok((Survey::Open(open), Answer::Recorded(answer)))
        }
        Event::Gauge(at, tenths, level) => {
            let answer = open.gauge(readings, at.day, at.point, at.atom, tenths, level);
            Ok((Survey::Open(open), Answer::Recorded(answer)))
        }
        Event::Phrase(kind, left, right) => {
            let answer = open.phrase(lines, kind, left, right);
            Ok((Survey::Open(open), Answer::Phrased(answer)))
        }
        Event::Work => match open.work(floor, calendar, readings, lines, findings) {
            Ok(worked) => Ok((Survey::Worked(worked), Answer::Worked(Ok(())))),
            Err((back, why)) => Ok((Survey::Open(back), Answer::Worked(Err(why)))),
        },
        Event::Examine => {
            let verdict = examine(open.numbers(), floor, calendar, readings, lines, findings);
            Ok((Survey::Open(open), Answer::Examined(verdict)))
        }
        Event::ExamineOther(book) => {
            let verdict = examine(open.numbers(), floor, calendar, readings, lines, book);
            Ok((Survey::Open(open), Answer::Examined(verdict)))
        }
        Event::Ask(_) | Event::Show(_) | Event::Reopen => Err(Survey::Open(open)),
    }
}

// An event on a worked survey; the survey as it was where the event does not fit.
fn step_worked<F: Floor, C: Calendar>(
    worked: Worked,
    floor: &F,
    calendar: &C,
    readings: &mut [u32],
    lines: &mut [Line],
    findings: &mut [u32],
    strip: &mut [u32],
    event: Event<'_>,
) -> Result<(Survey, Answer), Survey>
    ensures { Performs (F.Floor.points floor.now) (F.Floor.leads floor.now) (C.Floor.points calendar.now) (C.Floor.leads calendar.now) (world_of (Survey.Worked worked) readings.old lines.old findings.old strip.old) event.entry (λ s. world_of s readings.new lines.new findings.new strip.new) result }
{
    match event {
        Event::Ask(place) => {
            let answer = worked.ask(findings, place.line, place.day, place.point);
            Ok((Survey::Worked(worked), Answer::Asked(answer)))
        }
        Event::Show(at) => {
            let answer = worked.show(
                floor, calendar, lines, findings, at.line, at.day, at.point, strip,
            );
            Ok((Survey::Worked(worked), Answer::Shown(answer)))
        }
        Event::Examine => {
            let verdict = examine(worked.numbers(), floor, calendar, readings, lines, findings);
            Ok((Survey::Worked(worked), Answer::Examined(verdict)))
        }
        Event::ExamineOther(book) => {
            let verdict = examine(worked.numbers(), floor, calendar, readings, lines, book);
            Ok((Survey::Worked(worked), Answer::Examined(verdict)))
        }
        Event::Reopen => Ok((Survey::Open(worked.reopen()), Answer::Reopened)),
        Event::Record(_, _) | Event::Gauge(_, _, _) | Event::Phrase(_, _, _) | Event::Work => {
            Err(Survey::Worked(worked))
        }
    }
}

// Performs one event through the calls and answers what the call answered; hands the survey back as it was where the event does not fit its
// state, as the compiler would stop it.
pub fn step<F: Floor, C: Calendar>(
    survey: Survey,
    floor: &F,
    calendar: &C,
    readings: &mut [u32],
    lines: &mut [Line],
    findings: &mut [u32],
    strip: &mut [u32],
    event: Event<'_>,
) -> Result<(Survey, Answer), Survey>
    ensures { Performs (F.Floor.points floor.now) (F.Floor.leads floor.now) (C.Floor.points calendar.now) (C.Floor.leads calendar.now) (world_of survey readings.old lines.old findings.old strip.old) event.entry (λ s. world_of s readings.new lines.new findings.new strip.new) result }
{
    match survey {
        Survey::Open(s) => step_open(s, floor, calendar, readings, lines, findings, strip, event),
        Survey::Worked(s) => {
            step_worked(s, floor, calendar, readings, lines, findings, strip, event)
        }
    }
}
