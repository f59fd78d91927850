// A calendar with a day too many for any survey.
ghost use Rattle.std.specs.Prelude.{◌&&◌, ◌==◌, nat_lt};
ghost use Rattle.std.proofs.Common.{rules, arith};
ghost use Rattle.std.proofs.lemmas.Bool.Decides.{nat_tests};

use model::{Calendar, Floor};

// 65 days, each of which leads to itself alone.
pub(crate) struct LongCalendar;

impl Floor for LongCalendar {
    ghost points = { λ _. 65 };

    ghost leads = { λ _ p q. nat_lt p 65 && q == p };

    ghost some = { Prim.search rules };

    ghost few = { Prim.search rules };

    ghost inside = { Prim.search rules };

    fn count(&self) -> usize {
        65
    }

    fn onward(&self, p: usize, q: usize) -> Option<usize> {
        (p < 65 && q <= p).then_some(p)
    }

    // A day is led to by itself alone.
    fn inward(&self, p: usize, q: usize) -> Option<usize> {
        self.onward(p, q)
    }
}

impl Calendar for LongCalendar {
    ghost unending = { λ c d h. (d, Prim.grind (arith, nat_tests)) };
}
