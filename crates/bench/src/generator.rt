// A fixed sequence of numbers, the same on every run.
ghost use Rattle.std.specs.Prelude.{◌≡◌, ◌+◌, ◌*◌, ◌/◌, ◌%◌, ◌^◌, Some};

// Where the sequence stands.
#[derive(Clone, Copy)]
pub(crate) struct Generator {
    pub(crate) state: u32,
}

// Each number is of 16 bits: the upper half of a state that is multiplied and added to at each turn.
impl Iterator for Generator {
    type Item = u32;

    ghost next_gives = { λ s number t. (t.state ≡ (s.state * 1664525 + 1013904223) % 2 ^ 32) × (number ≡ Some (t.state / 65536)) };

    fn next(&mut self) -> Option<u32> {
        self.state = self.state.wrapping_mul(1664525).wrapping_add(1013904223);
        Some(self.state / 65536)
    }
}
