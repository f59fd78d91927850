// Days until right, read off masks.
ghost use Rattle.std.specs.Prelude.{true};
ghost use Rattle.model.specs.Masks.{bit};

use crate::exploration::Rules;
use crate::words::is_set;

// Beginnings of runs: over days with left yes to one with right yes. The two parts are left's and right's answers at one point, a bit for
// each day.
#[derive(Clone, Copy)]
pub(crate) struct DayAnswers {
    pub(crate) left: u64,
    pub(crate) right: u64,
}

impl Rules for DayAnswers {
    ghost goal = { λ s e. bit s.right e };

    ghost leave = { λ s e. bit s.left e };

    ghost enter = { λ s e. true };

    fn is_goal(&self, x: usize) -> bool {
        is_set(self.right, x)
    }

    fn may_leave(&self, x: usize) -> bool {
        is_set(self.left, x)
    }

    fn may_enter(&self, _x: usize) -> bool {
        true
    }
}
