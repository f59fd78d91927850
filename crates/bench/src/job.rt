// What the arguments ask for.
use std::env::Args;

// The floor: a grid of rows and columns, or points with so many links.
#[derive(Clone, Copy)]
pub(crate) enum FloorMake {
    Grid(usize, usize),
    Links(usize, usize),
}

// The calendar: a chain of days, or days each of which leads to every day.
#[derive(Clone, Copy)]
pub(crate) enum CalendarMake {
    Chain(usize),
    All(usize),
}

// The readings: warm nearly everywhere and dry here and there; or warm at all points but the last, and dry nowhere.
#[derive(Clone, Copy)]
pub(crate) enum ReadingsMake {
    Mixed,
    Long,
}

// A survey to be worked so many times over, with a line for each letter of the kinds.
#[derive(Drop)]
pub(crate) struct Job {
    pub(crate) floor: FloorMake,
    pub(crate) calendar: CalendarMake,
    pub(crate) readings: ReadingsMake,
    pub(crate) kinds: String,
    pub(crate) turns: usize,
    pub(crate) timed: bool,
}

fn read_number(args: &mut Args) -> Option<usize> {
    args.next()?.as_str().parse().ok()
}

fn read_floor(args: &mut Args) -> Option<FloorMake> {
    let word = args.next()?;
    match word.as_str() {
        "grid" => Some(FloorMake::Grid(read_number(args)?, read_number(args)?)),
        "links" => Some(FloorMake::Links(read_number(args)?, read_number(args)?)),
        _ => None,
    }
}

fn read_calendar(args: &mut Args) -> Option<CalendarMake> {
    let word = args.next()?;
    match word.as_str() {
        "chain" => Some(CalendarMake::Chain(read_number(args)?)),
        "all" => Some(CalendarMake::All(read_number(args)?)),
        _ => None,
    }
}

fn read_readings(args: &mut Args) -> Option<ReadingsMake> {
    let word = args.next()?;
    match word.as_str() {
        "mixed" => Some(ReadingsMake::Mixed),
        "long" => Some(ReadingsMake::Long),
        _ => None,
    }
}

// The job of the arguments; none where they are not as they should be.
pub(crate) fn read_job(mut args: Args) -> Option<Job> {
    let _program = args.next()?;
    let floor = read_floor(&mut args)?;
    let calendar = read_calendar(&mut args)?;
    let readings = read_readings(&mut args)?;
    let kinds = args.next()?;
    let turns = read_number(&mut args)?;
    let timed = args.next().is_some_and(|word| word.as_str() == "time");
    Some(Job {
        floor,
        calendar,
        readings,
        kinds,
        turns,
        timed,
    })
}
