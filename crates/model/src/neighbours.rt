// Going through the points next to a point, from the least on. There are two iterators, since each asks another question at each step.
ghost use Rattle.std.specs.Prelude.{◌-◌};
ghost use Rattle.std.specs.Iterator.{at_most};
ghost use Rattle.model.specs.Relations.{turned, MovesOn};

use crate::floor::Floor;

// The points to which a point leads, from the least on. The hint is what the floor left in it at the last question.
#[derive(Drop)]
pub struct PointsAfter<'a, F> {
    pub(crate) floor: &'a F,
    pub(crate) point: usize,
    pub(crate) from: usize,
    pub(crate) hint: usize,
}

// The points that lead to a point, from the least on, with a hint of their own.
#[derive(Drop)]
pub struct PointsBefore<'a, F> {
    pub(crate) floor: &'a F,
    pub(crate) point: usize,
    pub(crate) from: usize,
    pub(crate) hint: usize,
}

impl<F: Floor> Iterator for PointsAfter<'_, F> {
    type Item = usize;

    ghost remaining = { λ s. at_most (F.Floor.points s.floor.now - s.from) };

    ghost next_gives = { MovesOn (λ s. F.Floor.points s.floor.now) (λ s. F.Floor.leads s.floor.now s.point) (λ s. s.from) };

    fn next(&mut self) -> Option<usize> {
        let q = self
            .floor
            .onward_near(self.point, self.from, &mut self.hint)?;
        self.from = q + 1;
        Some(q)
    }
}

impl<F: Floor> Iterator for PointsBefore<'_, F> {
    type Item = usize;

    ghost remaining = { λ s. at_most (F.Floor.points s.floor.now - s.from) };

    ghost next_gives = { MovesOn (λ s. F.Floor.points s.floor.now) (λ s. turned (F.Floor.leads s.floor.now) s.point) (λ s. s.from) };

    fn next(&mut self) -> Option<usize> {
        let q = self
            .floor
            .inward_near(self.point, self.from, &mut self.hint)?;
        self.from = q + 1;
        Some(q)
    }
}
