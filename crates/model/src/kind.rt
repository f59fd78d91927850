// The kinds of lines: one table says of each its letter and what its operands must be.
ghost use Rattle.std.specs.Prelude.{◌≡◌};
ghost use Rattle.model.specs.Kinds.{kind_row};

// What a line asks of its operands.
#[derive(Clone, Copy, PartialEq, Eq, Debug)]
pub enum Kind {
    // always yes
    Truth,
    // the reading of an atom
    Reading,
    // left is no
    Not,
    // left or right is yes
    Or,
    // left is yes here or at a point that leads here
    Near,
    // a region of left, bordered by right, holds the point
    Surrounded,
    // left is yes on some next day
    Next,
    // on some run left is yes until right is
    Until,
    // every run meets a day with left yes
    Awaited,
}

// What an operand of a line must be.
#[derive(Clone, Copy, PartialEq, Eq, Debug)]
pub enum Operand {
    // 0
    Unused,
    // the number of an atom, 0 to 31
    Atom,
    // the number of a lower line
    Lower,
}

// A row of the table of kinds.
#[derive(Clone, Copy, PartialEq, Eq, Debug)]
pub struct KindRow {
    pub letter: u8,
    pub kind: Kind,
    pub left: Operand,
    pub right: Operand,
}

// The table of kinds.
pub const KINDS: [KindRow; 9] = [
    KindRow {
        letter: b'T',
        kind: Kind::Truth,
        left: Operand::Unused,
        right: Operand::Unused,
    },
    KindRow {
        letter: b'P',
        kind: Kind::Reading,
        left: Operand::Atom,
        right: Operand::Unused,
    },
    KindRow {
        letter: b'!',
        kind: Kind::Not,
        left: Operand::Lower,
        right: Operand::Unused,
    },
    KindRow {
        letter: b'O',
        kind: Kind::Or,
        left: Operand::Lower,
        right: Operand::Lower,
    },
    KindRow {
        letter: b'N',
        kind: Kind::Near,
        left: Operand::Lower,
        right: Operand::Unused,
    },
    KindRow {
        letter: b'S',
        kind: Kind::Surrounded,
        left: Operand::Lower,
        right: Operand::Lower,
    },
    KindRow {
        letter: b'X',
        kind: Kind::Next,
        left: Operand::Lower,
        right: Operand::Unused,
    },
    KindRow {
        letter: b'U',
        kind: Kind::Until,
        left: Operand::Lower,
        right: Operand::Lower,
    },
    KindRow {
        letter: b'F',
        kind: Kind::Awaited,
        left: Operand::Lower,
        right: Operand::Unused,
    },
];

// The row of a kind letter, or none where the letter is not in the table. The letter is a byte, matched as a `char` over a constant table: a
// rule of the project.
pub fn kind_row(letter: u8) -> Option<KindRow>
    ensures { result ≡ kind_row letter }
{
    match letter as char {
        'T' => Some(KINDS[0]),
        'P' => Some(KINDS[1]),
        '!' => Some(KINDS[2]),
        'O' => Some(KINDS[3]),
        'N' => Some(KINDS[4]),
        'S' => Some(KINDS[5]),
        'X' => Some(KINDS[6]),
        'U' => Some(KINDS[7]),
        'F' => Some(KINDS[8]),
        _ => None,
    }
}
