// Temperatures by gauge, and the readings that they give.
use crate::books::Books;
use crate::calls::{gauge_reading, phrase_line};
use crate::heap::finish;
use crate::lines::{line, spot};
use crate::site::Site;
use engine::Open;
use model::{ChainCalendar, Grid};
use std::io;

// Gauges four points, tenths and level of each.
fn gauge_all(rt: &HostRuntime, open: &Open, books: &mut Books) -> io::Result<()> {
    for (point, (tenths, level)) in [(245, 25), (244, 25), (-5, 0), (-4, 0)].iter().enumerate() {
        let readings = &mut books.readings;
        gauge_reading(rt, open, readings, spot(point, 0), *tenths, *level)?;
    }
    Ok(())
}

// Gauges four points, and once out of range, and reads the readings back by a line.
pub(crate) fn print_gauges(rt: &HostRuntime, books: &mut Books) -> io::Result<()> {
    println!(rt; "gauges: grid of 1 x 4")?;
    let site = Site {
        rt,
        floor: &Grid::new(1, 4).unwrap(),
        calendar: &ChainCalendar::new(1).unwrap(),
    };
    let Some(mut open) = site.open_survey(books)? else {
        return Ok(());
    };
    gauge_all(rt, &open, books)?;
    gauge_reading(rt, &open, &mut books.readings, spot(0, 0), 1201, 25)?;
    phrase_line(rt, &mut open, &mut books.lines, line(b'P', 0, 0))?;
    finish(&site, open, books, 0)?;
    Ok(())
}
