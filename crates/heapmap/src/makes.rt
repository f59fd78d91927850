// One floor and one calendar of each make.
use crate::rows::{print_calendar, print_floor};
use model::{ChainCalendar, Grid, LinkCalendar, LinkFloor};
use std::io;

pub(crate) fn print_makes(rt: &HostRuntime) -> io::Result<()> {
    if let Ok(grid) = Grid::new(2, 3) {
        print_floor(rt, "grid of 2 rows and 3 columns", &grid)?;
    }
    let mut floor = LinkFloor::new();
    print_floor(rt, "link floor as it is before it is filled", &floor)?;
    if floor.fill(4, &[3, 0, 0, 2, 0, 1, 1, 2, 0, 2, 2, 2]).is_ok() {
        print_floor(
            rt,
            "link floor of 4 points, links 3-0 0-2 0-1 1-2 0-2 2-2",
            &floor,
        )?;
    }
    if let Ok(chain) = ChainCalendar::new(4) {
        print_calendar(rt, "chain calendar of 4 days", &chain)?;
    }
    let mut calendar = LinkCalendar::new();
    print_calendar(rt, "link calendar as it is before it is filled", &calendar)?;
    if calendar.fill(3, &[0, 2, 2, 2, 0, 1, 1, 1]).is_ok() {
        print_calendar(
            rt,
            "link calendar of 3 days, links 0-2 2-2 0-1 1-1",
            &calendar,
        )?;
    }
    Ok(())
}
