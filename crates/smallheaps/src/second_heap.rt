// What is done with heap 2 once it is worked: shown, falsified, put right, compared with heap 1, and reopened.
use crate::books::Books;
use crate::calls::{phrase_line, record_reading};
use crate::heap::finish;
use crate::lines::{entry, line, spot};
use crate::site::Site;
use engine::Worked;
use model::{Calendar, Floor};
use std::io;

// Shows the way out from point 1; an atom's line has nothing to show, and a strip of three places is too short.
fn show_second<F: Floor, C: Calendar>(
    site: &Site<'_, F, C>,
    worked: &Worked,
    books: &Books,
) -> io::Result<()> {
    let mut strip = [0; 4];
    site.show_entry(worked, books, &mut strip, entry(2, 1))?;
    site.show_entry(worked, books, &mut strip, entry(0, 1))?;
    println!(site.rt; "  a strip of 3 places")?;
    let mut short = [0; 3];
    site.show_entry(worked, books, &mut short, entry(2, 1))
}

// Makes the word of point 2 another, and examines and shows what then stands in the book.
fn rewrite<F: Floor, C: Calendar>(
    site: &Site<'_, F, C>,
    worked: &Worked,
    books: &mut Books,
    word: u32,
) -> io::Result<()> {
    println!(site.rt; "  the word of line 2 day 0 point 2 becomes {word}")?;
    books.findings[12] = word;
    site.examine_book(worked.numbers(), books, "its", &books.findings)?;
    let mut strip = [0; 4];
    site.show_entry(worked, books, &mut strip, entry(2, 1))
}

// Reopens the survey, records D at point 4, phrases one line more and works again.
fn work_again<F: Floor, C: Calendar>(
    site: &Site<'_, F, C>,
    worked: Worked,
    books: &mut Books,
) -> io::Result<()> {
    let mut open = worked.reopen();
    println!(site.rt; "  reopen: reopened, {}", open.numbers())?;
    record_reading(site.rt, &open, &mut books.readings, spot(4, 1), true)?;
    phrase_line(site.rt, &mut open, &mut books.lines, line(b'N', 0, 0))?;
    finish(site, open, books, 2)?;
    Ok(())
}

// All of it, in that order.
pub(crate) fn follow<F: Floor, C: Calendar>(
    site: &Site<'_, F, C>,
    worked: Worked,
    books: &mut Books,
    foreign: &[u32],
) -> io::Result<()> {
    show_second(site, &worked, books)?;
    rewrite(site, &worked, books, 6)?;
    rewrite(site, &worked, books, 4)?;
    site.examine_book(worked.numbers(), books, "heap 1's", foreign)?;
    work_again(site, worked, books)
}
