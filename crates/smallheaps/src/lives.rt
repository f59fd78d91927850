// Lists of events, replayed.
use crate::books::Books;
use crate::lines::{entry, spot};
use crate::say::say_row;
use journal::{Event, Replayed, Survey, replay};
use model::{ChainCalendar, Grid};
use std::io;

// Where a replay stopped, if it did, and the survey that it came to.
fn print_replayed(rt: &HostRuntime, replayed: &Replayed) -> io::Result<()> {
    match replayed.stopped {
        Some(number) => println!(rt; "  event {number}, counted from 0, does not fit")?,
        None => println!(rt; "  every event fits")?,
    }
    match &replayed.survey {
        Survey::Open(open) => println!(rt; "  the survey is open: {}", open.numbers()),
        Survey::Worked(worked) => println!(rt; "  the survey is worked: {}", worked.numbers()),
    }
}

// Replays the events on a grid of 1 x 5.
fn print_replay(
    rt: &HostRuntime,
    books: &mut Books,
    strip: &mut [u32],
    events: &[Event<'_>],
) -> io::Result<()> {
    let grid = Grid::new(1, 5).unwrap();
    let chain = ChainCalendar::new(1).unwrap();
    match replay(
        &grid,
        &chain,
        &mut books.readings,
        &mut books.lines,
        &mut books.findings,
        strip,
        events,
    ) {
        Ok(replayed) => print_replayed(rt, &replayed),
        Err(why) => println!(rt; "{why}"),
    }
}

// The life of heap 2: given, worked, asked, shown, examined, reopened, and D recorded at point 4.
fn print_life(rt: &HostRuntime, books: &mut Books) -> io::Result<()> {
    println!(rt;
        "replay of heap 2: four readings, three lines, work, ask, show, examine, reopen, a reading"
    )?;
    let events = [
        Event::Record(spot(1, 0), true),
        Event::Record(spot(2, 0), true),
        Event::Record(spot(3, 0), true),
        Event::Record(spot(0, 1), true),
        Event::Phrase(b'P', 0, 0),
        Event::Phrase(b'P', 1, 0),
        Event::Phrase(b'S', 0, 1),
        Event::Work,
        Event::Ask(entry(2, 1)),
        Event::Show(entry(2, 1)),
        Event::Examine,
        Event::Reopen,
        Event::Record(spot(4, 1), true),
    ];
    let mut strip = [0; 4];
    print_replay(rt, books, &mut strip, &events)?;
    print!(rt; "  words of line 2:")?;
    say_row(rt, &books.findings, 10, 5)?;
    print!(rt; "  strip:")?;
    say_row(rt, &strip, 0, 4)
}

// A list that asks before it works.
fn print_misfit(rt: &HostRuntime, books: &mut Books) -> io::Result<()> {
    println!(rt; "replay of a reading, a line, ask, work")?;
    let events = [
        Event::Record(spot(1, 0), true),
        Event::Phrase(b'P', 0, 0),
        Event::Ask(entry(0, 1)),
        Event::Work,
    ];
    print_replay(rt, books, &mut [0; 4], &events)
}

// Both, each with books of its own.
pub(crate) fn print_lives(rt: &HostRuntime) -> io::Result<()> {
    print_life(rt, &mut Books::new())?;
    print_misfit(rt, &mut Books::new())
}
