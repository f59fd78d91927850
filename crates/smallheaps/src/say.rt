// Prints that something was done, and rows of numbers.
use model::Refusal;
use std::io;

// That something was done, or the refusal.
pub(crate) fn say_done(
    rt: &HostRuntime,
    done: &str,
    outcome: Result<(), Refusal>,
) -> io::Result<()> {
    match outcome {
        Ok(()) => println!(rt; "{done}"),
        Err(why) => println!(rt; "{why}"),
    }
}

// Some numbers of a book or a strip. A place and a count, since a slice would have to be shown to lie within.
pub(crate) fn say_row(rt: &HostRuntime, row: &[u32], from: usize, count: usize) -> io::Result<()> {
    for value in row.iter().skip(from).take(count) {
        print!(rt; " {value}")?;
    }
    println!(rt; "")
}
