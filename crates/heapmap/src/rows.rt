// Prints a floor point by point, and a calendar day by day.
ghost use Rattle.std.specs.Iterator.{IsFinite};

use model::{Calendar, Floor};
use std::io;

// Some points, in one row.
fn print_points<I: Iterator<Item = usize> + Drop>(rt: &HostRuntime, points: I) -> io::Result<()>
    requires can { I.can_next points }
    requires ends { IsFinite (I.remaining points) }
{
    for p in points {
        print!(rt; " {p}")?;
    }
    Ok(())
}

// A line for each point: where it leads, and what leads to it.
pub(crate) fn print_floor<F: Floor>(rt: &HostRuntime, name: &str, floor: &F) -> io::Result<()> {
    println!(rt; "{name}")?;
    for p in 0..floor.count() {
        print!(rt; "  point {p}, onward:")?;
        print_points(rt, floor.after(p))?;
        print!(rt; "; inward:")?;
        print_points(rt, floor.before(p))?;
        println!(rt; "")?;
    }
    Ok(())
}

// A line for each day: where it leads, and its morrow.
pub(crate) fn print_calendar<C: Calendar>(
    rt: &HostRuntime,
    name: &str,
    calendar: &C,
) -> io::Result<()> {
    println!(rt; "{name}")?;
    for d in 0..calendar.count() {
        print!(rt; "  day {d}, onward:")?;
        print_points(rt, calendar.after(d))?;
        let morrow = calendar.morrow(d);
        println!(rt; "; morrow: {morrow}")?;
    }
    Ok(())
}
