// Makes a floor and a calendar of each make, and prints where each point and each day leads, and what is refused.
#![tactic(auto)]

mod makes;
mod refusals;
mod rows;

use std::io;

fn main(rt: HostRuntime) -> io::Result<()> {
    makes::print_makes(&rt)?;
    refusals::print_refusals(&rt)
}
