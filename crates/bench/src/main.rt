// Works a survey of a chosen size, and prints a checksum of its findings.
#![tactic(auto)]

mod checksum;
mod generator;
mod inputs;
mod job;
mod stop;
mod work;

use job::{CalendarMake, FloorMake, Job};
use model::{ChainCalendar, Floor, Grid, LinkCalendar, LinkFloor};
use std::{env, io};
use stop::Stop;

// Makes the calendar that is asked for, and works the survey with it.
fn with_calendar<F: Floor>(rt: &HostRuntime, job: &Job, floor: &F) -> Result<(), Stop> {
    match job.calendar {
        CalendarMake::Chain(days) => {
            work::print_findings(rt, job, floor, &ChainCalendar::new(days)?)
        }
        CalendarMake::All(days) => {
            let pairs = inputs::all_pairs(rt.alloc(), days)?;
            let mut calendar = LinkCalendar::new();
            calendar.fill(days, &pairs)?;
            work::print_findings(rt, job, floor, &calendar)
        }
    }
}

// Makes the floor that is asked for, and works the survey on it.
fn with_floor(rt: &HostRuntime, job: &Job) -> Result<(), Stop> {
    match job.floor {
        FloorMake::Grid(rows, cols) => with_calendar(rt, job, &Grid::new(rows, cols)?),
        FloorMake::Links(points, links) => {
            let pairs = inputs::random_pairs(rt.alloc(), points, links)?;
            let mut floor = LinkFloor::new();
            floor.fill(points, &pairs)?;
            with_calendar(rt, job, &floor)
        }
    }
}

fn main(rt: HostRuntime) -> io::Result<()> {
    let Some(job) = job::read_job(env::args(&rt)?) else {
        return println!(rt;
            "grid ROWS COLUMNS or links POINTS LINKS, chain DAYS or all DAYS, mixed or long, KINDS, TURNS, and time or nothing"
        );
    };
    match with_floor(&rt, &job) {
        Ok(()) => Ok(()),
        Err(Stop::Refused(why)) => println!(rt; "{why}"),
        Err(Stop::Failed(error)) => Err(error),
    }
}
