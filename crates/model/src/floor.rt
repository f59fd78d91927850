// What every floor is, whatever its make.
ghost use Rattle.std.specs.Prelude.{◌≡◌, ℕ, ◌≤◌, Bool};
ghost use Rattle.model.specs.Numbers.{Least};
ghost use Rattle.model.specs.Relations.{Inside, turned};

use crate::neighbours::{PointsAfter, PointsBefore};

// A floor: 1 to 4,096 points, numbered from 0, and a relation "leads to" among them.
pub trait Floor {
    // how many points there are
    ghost points: { Self → ℕ };

    // which point leads to which
    ghost leads: { Self → ℕ → ℕ → Bool };

    // The number of points.
    fn count(&self) -> usize
        ensures { result ≡ points self.now };

    // The least point at or above q to which p leads.
    fn onward(&self, p: usize, q: usize) -> Option<usize>
        ensures { Least (leads self.now p) q (points self.now) result };

    // The least point at or above q that leads to p.
    fn inward(&self, p: usize, q: usize) -> Option<usize>
        ensures { Least (turned (leads self.now) p) q (points self.now) result };

    // What `onward` answers. The hint may be any number, 0 at first; a floor may leave in it what helps it with the next question about p.
    fn onward_near(&self, p: usize, q: usize, _hint: &mut usize) -> Option<usize>
        ensures { Least (leads self.now p) q (points self.now) result }
    {
        self.onward(p, q)
    }

    // What `inward` answers. The hint may be any number, 0 at first; a floor may leave in it what helps it with the next question about p.
    fn inward_near(&self, p: usize, q: usize, _hint: &mut usize) -> Option<usize>
        ensures { Least (turned (leads self.now) p) q (points self.now) result }
    {
        self.inward(p, q)
    }

    // The points to which p leads, from the least on.
    final fn after(&self, p: usize) -> PointsAfter<'_, Self>
        ensures floor { result.floor.now ≡ self.now }
        ensures point { result.point ≡ p }
        ensures from { result.from ≡ 0 }
    {
        PointsAfter {
            floor: self,
            point: p,
            from: 0,
            hint: 0,
        }
    }

    // The points that lead to q, from the least on.
    final fn before(&self, q: usize) -> PointsBefore<'_, Self>
        ensures floor { result.floor.now ≡ self.now }
        ensures point { result.point ≡ q }
        ensures from { result.from ≡ 0 }
    {
        PointsBefore {
            floor: self,
            point: q,
            from: 0,
            hint: 0,
        }
    }

    ghost some: { (f : Self) → 1 ≤ points f };

    ghost few: { (f : Self) → points f ≤ 4096 };

    ghost inside: { (f : Self) → Inside (points f) (leads f) };
}
