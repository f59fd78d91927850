// Works a small heap, and prints which of its warm points are closed in by dry ones.
#![tactic(auto)]

mod heap;

use std::io;

fn main(rt: HostRuntime) -> io::Result<()> {
    heap::print_heap(&rt)
}
