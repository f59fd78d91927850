// Seven small heaps through every call of a survey, and what is refused.
#![tactic(auto)]

mod books;
mod calls;
mod gauges;
mod heap;
mod heaps;
mod lines;
mod lives;
mod long_calendar;
mod refusals;
mod say;
mod second_heap;
mod site;

use books::Books;
use heaps::{print_dated, print_linked};
use std::io;

fn main(rt: HostRuntime) -> io::Result<()> {
    let mut books = Books::new();
    heaps::print_first_two(&rt, &mut Books::new(), &mut books)?;
    heaps::print_third(&rt, &mut books)?;
    let name = "heap 4: points linked 0-1 1-2, W at 0 1";
    print_linked(&rt, name, &[0, 1, 1, 2], &mut books)?;
    let name = "heap 5: points linked 1-0 2-1, W at 0 1";
    print_linked(&rt, name, &[1, 0, 2, 1], &mut books)?;
    let name = "heap 6: days linked 0-1 0-2 1-1 2-2, W on 1";
    print_dated(&rt, name, &[0, 1, 0, 2, 1, 1, 2, 2], 1, &mut books)?;
    let name = "heap 7: days linked 0-1 0-2 1-2 2-2, W on 2";
    print_dated(&rt, name, &[0, 1, 0, 2, 1, 2, 2, 2], 2, &mut books)?;
    gauges::print_gauges(&rt, &mut books)?;
    refusals::print_refusals(&rt, &mut books)?;
    lives::print_lives(&rt)
}
