// A survey's life from its opening on: any list of events, on one floor, one calendar and one set of books.
ghost use Rattle.std.specs.Prelude.{◌≡◌, length, IfOk, OnErr};
ghost use Rattle.std.specs.Result.{result_err};
ghost use Rattle.model.specs.Calls.{open_refusal};
ghost use Rattle.journal.specs.Law.{WholeLife};
ghost use Rattle.journal.specs.Ledgers.{opening, ledger_after};
ghost use Rattle.journal.specs.Worlds.{World, world_of};
ghost use Rattle.journal.specs.Replays.{performed, Opened, Lived};

use crate::event::Event;
use crate::stepping::step;
use crate::survey::Survey;
use engine::Open;
use model::{Calendar, Floor, Line, Refusal};

// What a replay comes to: the survey, and the number of the event that did not fit its state, where one did not.
#[derive(Drop)]
pub struct Replayed {
    pub survey: Survey,
    pub stopped: Option<usize>,
}

// Performs the events in order, up to the first that does not fit. The books are lent one by one, here and in a step: of a struct that holds
// them no two can be lent to one call in a form that has a proof yet.
fn perform<F: Floor, C: Calendar>(
    survey: Survey,
    floor: &F,
    calendar: &C,
    readings: &mut [u32],
    lines: &mut [Line],
    findings: &mut [u32],
    strip: &mut [u32],
    events: &[Event<'_>],
) -> Replayed
    ensures { Lived (F.Floor.points floor.now) (F.Floor.leads floor.now) (C.Floor.points calendar.now) (C.Floor.leads calendar.now) (world_of survey readings.old lines.old findings.old strip.old) events.now result.stopped (world_of result.survey readings.new lines.new findings.new strip.new) }
{
    let mut survey = survey;
    for (i, event) in events.iter().enumerate() {
        match step(
            survey, floor, calendar, readings, lines, findings, strip, *event,
        ) {
            // taken apart in two steps: a pattern that reaches into a survey within a result has no proof yet
            Ok(pair) => {
                let (next, _answer) = pair;
                survey = next;
            }
            Err(same) => {
                return Replayed {
                    survey: same,
                    stopped: Some(i),
                };
            }
        }
    }
    Replayed {
        survey,
        stopped: None,
    }
}

// Opens a survey on the floor and the calendar, and performs the events on it with one set of books and a strip, granted or refused, up to
// the first that does not fit. Whatever they are, the law of a survey's whole life holds then.
pub fn replay<F: Floor, C: Calendar>(
    floor: &F,
    calendar: &C,
    readings: &mut [u32],
    lines: &mut [Line],
    findings: &mut [u32],
    strip: &mut [u32],
    events: &[Event<'_>],
) -> Result<Replayed, Refusal>
    ensures refusal { result_err result ≡ open_refusal (F.Floor.points floor.now) (C.Floor.points calendar.now) (length readings.old) (length lines.old) }
    ensures kept { OnErr result ((readings.new ≡ readings.old) × (lines.new ≡ lines.old) × (findings.new ≡ findings.old) × (strip.new ≡ strip.old)) }
    ensures lived { IfOk result (λ p. (w : World) × Opened (F.Floor.points floor.now) (C.Floor.points calendar.now) readings.old lines.old findings.old strip.old w × Lived (F.Floor.points floor.now) (F.Floor.leads floor.now) (C.Floor.points calendar.now) (C.Floor.leads calendar.now) w events.now p.stopped (world_of p.survey readings.new lines.new findings.new strip.new)) }
    ensures law { IfOk result (λ p. WholeLife (F.Floor.points floor.now) (F.Floor.leads floor.now) (C.Floor.points calendar.now) (C.Floor.leads calendar.now) (ledger_after (opening (F.Floor.points floor.now) (C.Floor.points calendar.now)) (performed p.stopped events.now)) (world_of p.survey readings.new lines.new findings.new strip.new)) }
{
    let open = Open::open(floor, calendar, readings, lines)?;
    Ok(perform(
        Survey::Open(open),
        floor,
        calendar,
        readings,
        lines,
        findings,
        strip,
        events,
    ))
}
