// Works the survey, and prints what came out.
use crate::checksum::checksum;
use crate::inputs::{line_of, note_readings};
use crate::job::Job;
use crate::stop::Stop;
use engine::Open;
use model::{Calendar, Floor, Line, Refusal, SurveyNumbers};
use std::io;
use std::time::Instant;

// Phrases a line for each letter; why one was refused.
fn phrase_lines(open: &mut Open, kinds: &[u8], lines: &mut [Line]) -> Result<(), Refusal> {
    for (i, letter) in kinds.iter().enumerate() {
        let line = line_of(*letter, i);
        open.phrase(lines, line.kind, line.left, line.right)?;
    }
    Ok(())
}

// Works the survey so many times over; the answer is the shortest time in nanoseconds.
fn work<F: Floor, C: Calendar>(
    rt: &HostRuntime,
    turns: usize,
    open: Open,
    floor: &F,
    calendar: &C,
    readings: &[u32],
    lines: &[Line],
    findings: &mut [u32],
) -> Result<u128, Stop> {
    let mut best = u128::MAX;
    let mut survey = open;
    for _ in 0..turns {
        let start = Instant::now(rt)?;
        let outcome = survey.work(floor, calendar, readings, lines, findings);
        best = best.min(start.elapsed(rt)?.as_nanos());
        survey = outcome.map_err(|(_open, why)| why)?.reopen();
    }
    Ok(best)
}

// The numbers of the survey and the checksum of its findings, and the time where it is asked for.
fn print_outcome(
    rt: &HostRuntime,
    job: &Job,
    numbers: SurveyNumbers,
    best: u128,
    sum: u32,
) -> io::Result<()> {
    println!(rt; "{numbers}, findings {sum}")?;
    if job.timed {
        println!(rt; "nanoseconds {best}")?;
    }
    Ok(())
}

// Describes the survey in books of its own: opened, its readings noted, its lines phrased.
fn describe<F: Floor, C: Calendar>(
    job: &Job,
    floor: &F,
    calendar: &C,
    readings: &mut [u32],
    lines: &mut [Line],
) -> Result<Open, Refusal> {
    let mut open = Open::open(floor, calendar, readings, lines)?;
    note_readings(job.readings, floor.count(), readings);
    phrase_lines(&mut open, job.kinds.as_bytes(), lines)?;
    Ok(open)
}

// Makes the books, works the survey and prints the outcome.
pub(crate) fn print_findings<F: Floor, C: Calendar>(
    rt: &HostRuntime,
    job: &Job,
    floor: &F,
    calendar: &C,
) -> Result<(), Stop> {
    let heap = rt.alloc();
    let mut lines = [Line::default(); 64];
    let size = calendar.count() * floor.count();
    let mut readings = vec![in heap; 0u32; size]?;
    let open = describe(job, floor, calendar, readings.as_mut_slice(), &mut lines)?;
    let numbers = open.numbers();
    let mut findings = vec![in heap; 0u32; numbers.lines * size]?;
    let book = findings.as_mut_slice();
    let best = work(
        rt, job.turns, open, floor, calendar, &readings, &lines, book,
    )?;
    print_outcome(rt, job, numbers, best, checksum(&findings))?;
    Ok(())
}
