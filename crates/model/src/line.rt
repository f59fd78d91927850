// A line of the lines book.
ghost use Rattle.std.specs.Prelude.{Some};

use std::fmt;

// A line: its kind's letter and its two operands, each a lower line's number, an atom or an unused 0.
#[derive(Clone, Copy, PartialEq, Eq, Debug, Default)]
pub struct Line {
    pub kind: u8,
    pub left: u32,
    pub right: u32,
}

// The letter and the operands.
impl fmt::Display for Line {
    ghost use Rattle.model.specs.Printing.{line_text};

    ghost output = { λ line. Some (line_text line) };

    fn fmt<W: fmt::Write>(&self, f: &mut fmt::Formatter<W>) -> fmt::Result {
        let letter = self.kind as char;
        let left = self.left;
        let right = self.right;
        write!(f, "{letter} {left} {right}")
    }
}
