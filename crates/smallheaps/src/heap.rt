// One heap from its opening to its examination, on any floor and calendar.
use crate::books::Books;
use crate::calls::{ask_entry, phrase_line, record_reading};
use crate::say::say_row;
use crate::site::Site;
use engine::{Open, Worked};
use journal::{ReadingPlace, Survey};
use model::{Calendar, Floor, Line, Place};
use std::io;

// What is given of a heap: the place of each reading that is yes, and its lines.
#[derive(Clone, Copy)]
pub(crate) struct Heap<'a> {
    pub name: &'a str,
    pub readings: &'a [ReadingPlace],
    pub lines: &'a [Line],
}

// Records the readings and phrases the lines.
fn give(rt: &HostRuntime, open: &mut Open, books: &mut Books, heap: Heap<'_>) -> io::Result<()> {
    for at in heap.readings {
        record_reading(rt, open, &mut books.readings, *at, true)?;
    }
    phrase_lines(rt, open, books, heap.lines)
}

// Phrases the lines in order.
fn phrase_lines(
    rt: &HostRuntime,
    open: &mut Open,
    books: &mut Books,
    lines: &[Line],
) -> io::Result<()> {
    for line in lines {
        phrase_line(rt, open, &mut books.lines, *line)?;
    }
    Ok(())
}

// Asks for every entry of a line.
fn ask_line(rt: &HostRuntime, worked: &Worked, books: &Books, line: usize) -> io::Result<()> {
    let numbers = worked.numbers();
    for place in 0..numbers.size() {
        let at = Place {
            line,
            day: place / numbers.points,
            point: place % numbers.points,
        };
        ask_entry(rt, worked, &books.findings, at)?;
    }
    Ok(())
}

// Asks for every entry of the lines from `first` on, and prints their words as they stand in the findings book.
fn print_findings(
    rt: &HostRuntime,
    worked: &Worked,
    books: &Books,
    first: usize,
) -> io::Result<()> {
    let numbers = worked.numbers();
    let size = numbers.size();
    for line in first..numbers.lines {
        ask_line(rt, worked, books, line)?;
        print!(rt; "  words of line {line}:")?;
        say_row(rt, &books.findings, line * size, size)?;
    }
    Ok(())
}

// Works a survey, prints its findings from line `first` on and has its findings book examined.
pub(crate) fn finish<F: Floor, C: Calendar>(
    site: &Site<'_, F, C>,
    open: Open,
    books: &mut Books,
    first: usize,
) -> io::Result<Survey> {
    let survey = site.work_survey(open, books)?;
    if let Survey::Worked(worked) = &survey {
        print_findings(site.rt, worked, books, first)?;
        site.examine_book(worked.numbers(), books, "its", &books.findings)?;
    }
    Ok(survey)
}

// Opens a survey of the heap, gives it what is known of it, and works it. The lines above its two lowest are printed.
pub(crate) fn run_heap<F: Floor, C: Calendar>(
    site: &Site<'_, F, C>,
    heap: Heap<'_>,
    books: &mut Books,
) -> io::Result<Option<Worked>> {
    println!(site.rt; "{}", heap.name)?;
    let Some(mut open) = site.open_survey(books)? else {
        return Ok(None);
    };
    give(site.rt, &mut open, books, heap)?;
    match finish(site, open, books, 2)? {
        Survey::Worked(worked) => Ok(Some(worked)),
        Survey::Open(_) => Ok(None),
    }
}
