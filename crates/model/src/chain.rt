// The chain calendar: one plan without forks.
ghost use Rattle.std.specs.Prelude.{◌≡◌, ℕ, ◌+◌, ◌≤◌, IfOk, if◌then◌else◌, nat_lt};
ghost use Rattle.std.specs.Result.{result_err};
ghost use Rattle.model.specs.Calls.{answer};
ghost use Rattle.model.specs.Chains.{chained};
ghost use Rattle.model.specs.Refusals.{days_refusal};
ghost use Rattle.std.proofs.Common.{rules, arith};
ghost use Rattle.std.proofs.lemmas.Bool.Decides.{nat_tests};

use crate::calendar::Calendar;
use crate::floor::Floor;
use crate::refusal::Refusal;

// Each day leads to the next, the last to itself.
#[derive(Drop)]
pub struct ChainCalendar {
    days: usize,
    ghost some: { 1 ≤ days },
    ghost few: { days ≤ 64 },
}

// Whether a calendar can have so many days, or why not.
pub(crate) fn check_days(days: usize) -> Result<(), Refusal>
    ensures { result ≡ answer (days_refusal days) tt }
{
    if days == 0 || days > 64 {
        return Err(Refusal::CalendarSize);
    }
    Ok(())
}

impl ChainCalendar {
    // A chain of 1 to 64 days.
    pub fn new(days: usize) -> Result<ChainCalendar, Refusal>
        ensures refusal { result_err result ≡ days_refusal days }
        ensures days { IfOk result (λ c. c.days ≡ days) }
    {
        check_days(days)?;
        Ok(ChainCalendar { days })
    }
}

impl Floor for ChainCalendar {
    ghost points = { λ c. c.days };

    ghost leads = { λ c. chained c.days };

    ghost some = { Prim.search rules };

    ghost few = { Prim.search rules };

    ghost inside = { Prim.search rules };

    fn count(&self) -> usize {
        self.days
    }

    fn onward(&self, p: usize, q: usize) -> Option<usize> {
        if p >= self.days {
            return None;
        }
        let next = if p + 1 < self.days { p + 1 } else { p };
        (q <= next).then_some(next)
    }

    fn inward(&self, p: usize, q: usize) -> Option<usize> {
        if p >= self.days {
            return None;
        }
        if p > 0 && q < p {
            return Some(p - 1);
        }
        if p + 1 == self.days && q <= p {
            return Some(p);
        }
        None
    }
}

impl Calendar for ChainCalendar {
    ghost unending = { λ c d h. ((if nat_lt (d + 1) c.days then d + 1 else d), Prim.grind (arith, nat_tests)) };
}
