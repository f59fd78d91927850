// The seven small heaps. Those on a floor have one day, those on a calendar one point.
use crate::books::Books;
use crate::heap::{Heap, run_heap};
use crate::lines::{calendar_lines, entry, floor_lines, spot};
use crate::second_heap::follow;
use crate::site::Site;
use journal::ReadingPlace;
use model::{ChainCalendar, Grid, LinkCalendar, LinkFloor};
use std::io;

// Heaps 1 and 2, each in books of its own, and what is done with heap 2 and its findings.
pub(crate) fn print_first_two(
    rt: &HostRuntime,
    first_books: &mut Books,
    books: &mut Books,
) -> io::Result<()> {
    let site = Site {
        rt,
        floor: &Grid::new(1, 5).unwrap(),
        calendar: &ChainCalendar::new(1).unwrap(),
    };
    let lines = floor_lines();
    let first = Heap {
        name: "heap 1: grid of 1 x 5, W at 1 2 3, D at 0 4",
        readings: &[spot(1, 0), spot(2, 0), spot(3, 0), spot(0, 1), spot(4, 1)],
        lines: &lines[0..3],
    };
    run_heap(&site, first, first_books)?;
    let second = Heap {
        name: "heap 2: heap 1, D at 0 only",
        readings: &[spot(1, 0), spot(2, 0), spot(3, 0), spot(0, 1)],
        lines: &lines[0..3],
    };
    match run_heap(&site, second, books)? {
        Some(worked) => follow(&site, worked, books, &first_books.findings),
        None => Ok(()),
    }
}

// Heap 3, whose point 1 has both W and D.
pub(crate) fn print_third(rt: &HostRuntime, books: &mut Books) -> io::Result<()> {
    let site = Site {
        rt,
        floor: &Grid::new(1, 3).unwrap(),
        calendar: &ChainCalendar::new(1).unwrap(),
    };
    let heap = Heap {
        name: "heap 3: grid of 1 x 3, W at 0 1, D at 1",
        readings: &[spot(0, 0), spot(1, 0), spot(1, 1)],
        lines: &floor_lines()[0..3],
    };
    run_heap(&site, heap, books)?;
    Ok(())
}

// A heap of three points by links, W at 0 1.
pub(crate) fn print_linked(
    rt: &HostRuntime,
    name: &str,
    links: &[u32],
    books: &mut Books,
) -> io::Result<()> {
    let mut floor = LinkFloor::new();
    if floor.fill(3, links).is_err() {
        return Ok(());
    }
    let site = Site {
        rt,
        floor: &floor,
        calendar: &ChainCalendar::new(1).unwrap(),
    };
    let heap = Heap {
        name,
        readings: &[spot(0, 0), spot(1, 0)],
        lines: &floor_lines(),
    };
    run_heap(&site, heap, books)?;
    Ok(())
}

// A heap of one point and three days by links, W on one day; and what is shown of U and F on day 0. Apart from `print_linked`, since here the
// days are linked, and it is shown.
pub(crate) fn print_dated(
    rt: &HostRuntime,
    name: &str,
    links: &[u32],
    warm: usize,
    books: &mut Books,
) -> io::Result<()> {
    let mut calendar = LinkCalendar::new();
    if calendar.fill(3, links).is_err() {
        return Ok(());
    }
    let site = Site {
        rt,
        floor: &Grid::new(1, 1).unwrap(),
        calendar: &calendar,
    };
    let heap = Heap {
        name,
        readings: &[ReadingPlace {
            day: warm,
            point: 0,
            atom: 0,
        }],
        lines: &calendar_lines(),
    };
    if let Some(worked) = run_heap(&site, heap, books)? {
        let mut strip = [0; 4];
        site.show_entry(&worked, books, &mut strip, entry(2, 0))?;
        site.show_entry(&worked, books, &mut strip, entry(3, 0))?;
    }
    Ok(())
}
