// The lines that the heaps are asked by, and places on day 0, short to write. W is atom 0, D is atom 1.
ghost use Rattle.std.specs.Prelude.{◌≡◌};
ghost use Rattle.model.specs.Heaps.{floor_lines, calendar_lines};

use journal::ReadingPlace;
use model::{Line, Place};

// A line, short to write.
pub(crate) fn line(kind: u8, left: u32, right: u32) -> Line
    ensures { result ≡ record { kind = kind; left = left; right = right } }
{
    Line { kind, left, right }
}

// P of W, P of D, S of both, N of W.
pub(crate) fn floor_lines() -> [Line; 4]
    ensures { result ≡ floor_lines }
{
    [
        line(b'P', 0, 0),
        line(b'P', 1, 0),
        line(b'S', 0, 1),
        line(b'N', 0, 0),
    ]
}

// T, P of W, U of both, F of W, X of W.
pub(crate) fn calendar_lines() -> [Line; 5]
    ensures { result ≡ calendar_lines }
{
    [
        line(b'T', 0, 0),
        line(b'P', 0, 0),
        line(b'U', 0, 1),
        line(b'F', 1, 0),
        line(b'X', 1, 0),
    ]
}

// An atom at a point, on day 0.
pub(crate) fn spot(point: usize, atom: u32) -> ReadingPlace
    ensures { result ≡ record { day = 0; point = point; atom = atom } }
{
    ReadingPlace {
        day: 0,
        point,
        atom,
    }
}

// A line's entry at a point, on day 0.
pub(crate) fn entry(line: usize, point: usize) -> Place
    ensures { result ≡ record { line = line; day = 0; point = point } }
{
    Place {
        line,
        day: 0,
        point,
    }
}
