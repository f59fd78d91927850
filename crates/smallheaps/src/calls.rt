// Performs each call that takes no floor, and prints it with its answer. Each is lent only the book that its call takes.
use crate::say::say_done;
use engine::{Open, Worked};
use journal::ReadingPlace;
use model::{Line, Place};
use std::io;

pub(crate) fn record_reading(
    rt: &HostRuntime,
    open: &Open,
    readings: &mut [u32],
    at: ReadingPlace,
    value: bool,
) -> io::Result<()> {
    let answer = if value { "yes" } else { "no" };
    print!(rt; "  record {at} {answer}: ")?;
    let outcome = open.record(readings, at.day, at.point, at.atom, value);
    say_done(rt, "recorded", outcome)
}

pub(crate) fn gauge_reading(
    rt: &HostRuntime,
    open: &Open,
    readings: &mut [u32],
    at: ReadingPlace,
    tenths: i32,
    level: i32,
) -> io::Result<()> {
    print!(rt; "  gauge {at} tenths {tenths} level {level}: ")?;
    let outcome = open.gauge(readings, at.day, at.point, at.atom, tenths, level);
    say_done(rt, "recorded", outcome)
}

pub(crate) fn phrase_line(
    rt: &HostRuntime,
    open: &mut Open,
    lines: &mut [Line],
    line: Line,
) -> io::Result<()> {
    print!(rt; "  phrase {line}: ")?;
    match open.phrase(lines, line.kind, line.left, line.right) {
        Ok(number) => println!(rt; "line {number}"),
        Err(why) => println!(rt; "{why}"),
    }
}

pub(crate) fn ask_entry(
    rt: &HostRuntime,
    worked: &Worked,
    findings: &[u32],
    at: Place,
) -> io::Result<()> {
    print!(rt; "  ask {at}: ")?;
    match worked.ask(findings, at.line, at.day, at.point) {
        Ok(finding) => println!(rt; "{finding}"),
        Err(why) => println!(rt; "{why}"),
    }
}
