// The links, the readings and the lines of a survey.
ghost use Rattle.std.specs.Prelude.{◌≤◌};

use crate::generator::Generator;
use crate::job::ReadingsMake;
use model::{Line, Operand, kind_row};
use std::alloc::{AllocError, Global};

// A link from each day to each day.
pub(crate) fn all_pairs(heap: Global, days: usize) -> Result<Vec<u32>, AllocError> {
    let mut pairs = Vec::new(heap);
    if days <= 64 {
        for k in 0..days * days {
            pairs.push((k / days) as u32)?;
            pairs.push((k % days) as u32)?;
        }
    }
    Ok(pairs)
}

// So many links between points that the generator picks.
pub(crate) fn random_pairs(
    heap: Global,
    points: usize,
    links: usize,
) -> Result<Vec<u32>, AllocError> {
    let mut pairs = Vec::new(heap);
    if points > 0 && points <= 4096 && links <= 65536 {
        for number in (Generator { state: 1 }).take(2 * links) {
            pairs.push(number % points as u32)?;
        }
    }
    Ok(pairs)
}

// A reading word: bit 0 in fifteen of sixteen, bit 1 in one of eight.
fn mixed_reading(number: u32) -> u32 {
    let warm = if number % 16 == 0 { 0 } else { 1 };
    let dry = if number / 16 % 8 == 0 { 2 } else { 0 };
    warm + dry
}

// The readings, day by day and point by point.
pub(crate) fn note_readings(make: ReadingsMake, points: usize, readings: &mut [u32])
    requires { 1 ≤ points }
{
    let numbers = Generator { state: 2 };
    for (k, (word, number)) in readings.iter_mut().zip(numbers).enumerate() {
        *word = match make {
            ReadingsMake::Mixed => mixed_reading(number),
            ReadingsMake::Long => { if k % points + 1 == points { 0 } else { 1 } }
        };
    }
}

// Line i of a kind: a reading is of atom i, two lower lines are 0 and 1, and one is 1.
pub(crate) fn line_of(letter: u8, i: usize) -> Line {
    let atom = (i % 32) as u32;
    let (left, right) = match kind_row(letter) {
        Some(row) => match (row.left, row.right) {
            (Operand::Atom, _) => (atom, 0),
            (Operand::Lower, Operand::Lower) => (0, 1),
            (Operand::Lower, _) => (1, 0),
            (_, _) => (0, 0),
        },
        None => (0, 0),
    };
    Line {
        kind: letter,
        left,
        right,
    }
}
