// The books that the surveys of this program are kept in.
ghost use Rattle.std.specs.Prelude.{◌≡◌, replicate};

use model::Line;

// One set of books: arrays, by a rule of the project.
#[derive(Drop)]
pub(crate) struct Books {
    pub readings: [u32; 8192],
    pub lines: [Line; 64],
    pub findings: [u32; 8192],
}

impl Books {
    // Books of zeroes.
    pub fn new() -> Books
        ensures readings { result.readings ≡ replicate 8192 0 }
        ensures lines { result.lines ≡ replicate 64 (record { kind = 0; left = 0; right = 0 }) }
        ensures findings { result.findings ≡ replicate 8192 0 }
    {
        Books {
            readings: [0; 8192],
            lines: [Line::default(); 64],
            findings: [0; 8192],
        }
    }
}
