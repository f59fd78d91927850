// What is refused before a survey is worked, each with its number.
use crate::books::Books;
use crate::calls::{phrase_line, record_reading};
use crate::lines::{line, spot};
use crate::long_calendar::LongCalendar;
use crate::say::say_done;
use crate::site::Site;
use engine::Open;
use journal::Survey;
use model::{ChainCalendar, Grid, LinkCalendar};
use std::io;

// A calendar of too many days, and one with a day that leads nowhere.
fn refuse_calendars(rt: &HostRuntime, grid: &Grid, books: &mut Books) -> io::Result<()> {
    println!(rt; "a calendar of 65 days")?;
    let site = Site {
        rt,
        floor: grid,
        calendar: &LongCalendar,
    };
    site.open_survey(books)?;
    println!(rt; "a link calendar of 2 days, link 0-1 only")?;
    print!(rt; "  fill: ")?;
    let mut calendar = LinkCalendar::new();
    say_done(rt, "filled", calendar.fill(2, &[0, 1]))
}

// Readings in a short book and out of range.
fn refuse_readings(rt: &HostRuntime, open: &Open, books: &mut Books) -> io::Result<()> {
    println!(rt; "a readings book of 4 words")?;
    record_reading(rt, open, &mut books.readings[0..4], spot(1, 0), true)?;
    println!(rt; "a point that is not there")?;
    record_reading(rt, open, &mut books.readings, spot(5, 0), true)
}

// Lines of no kind and with a bad operand.
fn refuse_lines(rt: &HostRuntime, open: &mut Open, books: &mut Books) -> io::Result<()> {
    println!(rt; "a letter that is not in the table, and an operand that is no lower line")?;
    phrase_line(rt, open, &mut books.lines, line(b'Q', 0, 0))?;
    phrase_line(rt, open, &mut books.lines, line(b'P', 0, 0))?;
    phrase_line(rt, open, &mut books.lines, line(b'S', 0, 1))
}

// Phrases lines up to the last, and one more.
fn refuse_more_lines(rt: &HostRuntime, open: &mut Open, books: &mut Books) -> io::Result<()> {
    for _ in open.numbers().lines..64 {
        let _ = open.phrase(&mut books.lines, b'T', 0, 0);
    }
    println!(rt; "a line more than there can be")?;
    println!(rt; "  until now: {}", open.numbers())?;
    phrase_line(rt, open, &mut books.lines, line(b'T', 0, 0))
}

// Refusals of a survey of 5 points, from its opening on.
pub(crate) fn print_refusals(rt: &HostRuntime, books: &mut Books) -> io::Result<()> {
    let grid = Grid::new(1, 5).unwrap();
    let chain = ChainCalendar::new(1).unwrap();
    refuse_calendars(rt, &grid, books)?;
    println!(rt; "a survey without lines")?;
    let site = Site {
        rt,
        floor: &grid,
        calendar: &chain,
    };
    let Some(open) = site.open_survey(books)? else {
        return Ok(());
    };
    let Survey::Open(mut open) = site.work_survey(open, books)? else {
        return Ok(());
    };
    refuse_readings(rt, &open, books)?;
    refuse_lines(rt, &mut open, books)?;
    println!(rt; "a floor of 4 points")?;
    let narrow = Site {
        rt,
        floor: &Grid::new(1, 4).unwrap(),
        calendar: &chain,
    };
    let Survey::Open(mut open) = narrow.work_survey(open, books)? else {
        return Ok(());
    };
    refuse_more_lines(rt, &mut open, books)
}
