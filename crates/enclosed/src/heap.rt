// A small heap, worked: which of its warm points are closed in by dry ones, and the way out of one that is not.
use engine::{Open, Worked};
use model::{ChainCalendar, Grid, Line, Refusal};
use std::io;

// Warm, atom 0, at the points 1, 2 and 3, and dry, atom 1, at point 0; then a line for warm, one for dry, and warm surrounded by dry, whose
// number is the answer.
fn describe(open: &mut Open, readings: &mut [u32], lines: &mut [Line]) -> Result<usize, Refusal> {
    open.record(readings, 0, 0, 1, true)?;
    open.record(readings, 0, 1, 0, true)?;
    open.record(readings, 0, 2, 0, true)?;
    open.record(readings, 0, 3, 0, true)?;
    open.phrase(lines, b'P', 0, 0)?;
    open.phrase(lines, b'P', 1, 0)?;
    open.phrase(lines, b'S', 0, 1)
}

// The heap described and worked; the worked survey and the number of its last line.
fn survey(
    grid: &Grid,
    calendar: &ChainCalendar,
    readings: &mut [u32],
    lines: &mut [Line],
    findings: &mut [u32],
) -> Result<(Worked, usize), Refusal> {
    let mut open = Open::open(grid, calendar, readings, lines)?;
    let line = describe(&mut open, readings, lines)?;
    let worked = open
        .work(grid, calendar, readings, lines, findings)
        .map_err(|(_open, why)| why)?;
    Ok((worked, line))
}

// What is found at each of the five points.
fn print_answers(
    rt: &HostRuntime,
    worked: &Worked,
    findings: &[u32],
    line: usize,
) -> io::Result<()> {
    for x in 0..5 {
        if let Ok(finding) = worked.ask(findings, line, 0, x) {
            let number = finding.number;
            let answer = if finding.yes { "yes" } else { "no" };
            println!(rt; "  point {x}: {answer}, steps out: {number}")?;
        }
    }
    Ok(())
}

// The numbers of a strip, in one row.
fn print_numbers(rt: &HostRuntime, numbers: &[u32]) -> io::Result<()> {
    for number in numbers {
        print!(rt; " {number}")?;
    }
    println!(rt; "")
}

// Works the heap with books of its own, and prints what is found and the way out of point 1.
fn print_survey(rt: &HostRuntime, grid: &Grid, calendar: &ChainCalendar) -> io::Result<()> {
    let mut readings = [0; 8192];
    let mut findings = [0; 8192];
    let mut strip = [0; 8192];
    let mut lines = [Line::default(); 64];
    let Ok((worked, line)) = survey(grid, calendar, &mut readings, &mut lines, &mut findings) else {
        return Ok(());
    };
    print_answers(rt, &worked, &findings, line)?;
    if let Ok(count) = worked.show(grid, calendar, &lines, &findings, line, 0, 1, &mut strip) {
        print!(rt; "  way out of point 1:")?;
        print_numbers(rt, strip.get(..count).unwrap_or(&[]))?;
    }
    Ok(())
}

// The heap on a grid of one row and five columns, on one day.
pub(crate) fn print_heap(rt: &HostRuntime) -> io::Result<()> {
    println!(rt; "grid of 1 row and 5 columns, warm at 1 2 3, dry at 0: warm surrounded by dry")?;
    if let Ok(grid) = Grid::new(1, 5) {
        if let Ok(calendar) = ChainCalendar::new(1) {
            print_survey(rt, &grid, &calendar)?;
        }
    }
    Ok(())
}
