// Makings at the edges, and the numbers of those that are refused.
use model::{ChainCalendar, Grid, LinkCalendar, LinkFloor, Refusal};
use std::io;

// `made`, or the number of the refusal.
fn print_outcome<T: Drop>(
    rt: &HostRuntime,
    name: &str,
    outcome: Result<T, Refusal>,
) -> io::Result<()> {
    match outcome {
        Ok(_) => println!(rt; "  {name}: made"),
        Err(why) => println!(rt; "  {name}: {why}"),
    }
}

fn print_grids(rt: &HostRuntime) -> io::Result<()> {
    println!(rt; "grids by rows and columns")?;
    print_outcome(rt, "1 x 4096", Grid::new(1, 4096))?;
    print_outcome(rt, "4096 x 1", Grid::new(4096, 1))?;
    print_outcome(rt, "64 x 64", Grid::new(64, 64))?;
    print_outcome(rt, "65 x 64", Grid::new(65, 64))?;
    print_outcome(rt, "0 x 5", Grid::new(0, 5))?;
    print_outcome(rt, "5 x 0", Grid::new(5, 0))?;
    print_outcome(
        rt,
        "4294967296 x 4294967296",
        Grid::new(4294967296, 4294967296),
    )
}

fn print_link_floors(rt: &HostRuntime, list: &[u32; 131074]) -> io::Result<()> {
    let mut floor = LinkFloor::new();
    println!(rt; "link floors by points and pairs")?;
    print_outcome(rt, "0 points, 0-0", floor.fill(0, &[0, 0]))?;
    print_outcome(rt, "4097 points, an odd list", floor.fill(4097, &[0]))?;
    print_outcome(rt, "4096 points, 4095-0", floor.fill(4096, &[4095, 0]))?;
    print_outcome(rt, "3 points, an odd list", floor.fill(3, &[0, 1, 2]))?;
    print_outcome(rt, "3 points, 0-3", floor.fill(3, &[0, 3]))?;
    print_outcome(rt, "3 points, 65536 pairs", floor.fill(3, &list[0..131072]))?;
    print_outcome(rt, "3 points, 65537 pairs", floor.fill(3, list))
}

fn print_calendars(rt: &HostRuntime) -> io::Result<()> {
    let mut calendar = LinkCalendar::new();
    println!(rt; "calendars by days and pairs")?;
    print_outcome(rt, "chain of 64", ChainCalendar::new(64))?;
    print_outcome(rt, "chain of 65", ChainCalendar::new(65))?;
    print_outcome(rt, "chain of 0", ChainCalendar::new(0))?;
    print_outcome(rt, "links, 0 days, none", calendar.fill(0, &[]))?;
    print_outcome(rt, "links, 0 days, 0-0", calendar.fill(0, &[0, 0]))?;
    print_outcome(rt, "links, 65 days, 0-64", calendar.fill(65, &[0, 64]))?;
    print_outcome(rt, "links, 2 days, 0-1", calendar.fill(2, &[0, 1]))?;
    print_outcome(
        rt,
        "links, 2 days, 0-1 1-0",
        calendar.fill(2, &[0, 1, 1, 0]),
    )
}

pub(crate) fn print_refusals(rt: &HostRuntime) -> io::Result<()> {
    let list = [0u32; 131074];
    print_grids(rt)?;
    print_link_floors(rt, &list)?;
    print_calendars(rt)
}
