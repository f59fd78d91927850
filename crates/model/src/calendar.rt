// What every calendar is: a floor whose points are days, each of which leads on.
ghost use Rattle.std.specs.Prelude.{◌≡◌, ℕ};
ghost use Rattle.model.specs.Relations.{Unending, Morrow};

use crate::floor::Floor;

// A calendar: a floor, its points called days, on which every day leads to some day.
pub trait Calendar: Floor {
    // The least day to which d leads; the count where d is no day. No option, since the count is what is promised there.
    #[tactic(auto, using(crate::proofs::Relations::morrow_of))]
    fn morrow(&self, d: usize) -> usize
        ensures { Morrow (Self.Floor.points self.now) (Self.Floor.leads self.now) d result }
    {
        self.onward(d, 0).unwrap_or(self.count())
    }

    ghost unending: { (c : Self) → Unending (Self.Floor.points c) (Self.Floor.leads c) };
}
