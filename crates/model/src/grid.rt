// The grid floor: rows and columns of points.
ghost use Rattle.std.specs.Prelude.{◌≡◌, ℕ, ◌+◌, ◌*◌, ◌/◌, ◌≤◌, IfOk};
ghost use Rattle.std.specs.Result.{result_err};
ghost use Rattle.model.specs.Grids.{beside, ReadsByRowAndColumn};
ghost use Rattle.model.specs.Refusals.{grid_refusal};
ghost use Rattle.std.proofs.Common.{rules, arith};

use crate::floor::Floor;
use crate::refusal::Refusal;

// Each point, at row × columns + column, leads to its neighbours north, south, east and west. A product with the inverse and a shift give a
// point's row without a division.
#[derive(Drop)]
pub struct Grid {
    rows: usize,
    cols: usize,
    inverse: usize,
    ghost columns: { 1 ≤ cols },
    ghost some: { cols ≤ rows * cols },
    ghost few: { rows * cols ≤ 4096 },
    ghost exact: { inverse ≡ 4294967296 / cols + 1 },
}

impl Grid {
    // A grid of at least one row and one column, with at most 4,096 points.
    #[tactic(auto, using(crate::proofs::Grids::reads))]
    pub fn new(rows: usize, cols: usize) -> Result<Grid, Refusal>
        ensures refusal { result_err result ≡ grid_refusal rows cols }
        ensures rows { IfOk result (λ g. g.rows ≡ rows) }
        ensures cols { IfOk result (λ g. g.cols ≡ cols) }
        ensures reads { IfOk result (λ g. ReadsByRowAndColumn g.rows g.cols) }
    {
        if rows == 0 || cols == 0 || rows > 4096 || cols > 4096 || rows * cols > 4096 {
            return Err(Refusal::FloorSize);
        }
        Ok(Grid {
            rows,
            cols,
            inverse: 4294967296 / cols + 1,
        })
    }

    // The row of a number up to 4,096.
    fn row(&self, p: usize) -> usize
        requires { p ≤ 4096 }
        ensures { result ≡ p / self.now.cols }
    {
        (p * self.inverse) >> 32
    }
}

impl Floor for Grid {
    ghost points = { λ g. g.rows * g.cols };

    ghost leads = { λ g. beside g.rows g.cols };

    ghost some = { Prim.search rules };

    ghost few = { Prim.search rules };

    ghost inside = { Prim.search rules };

    fn count(&self) -> usize {
        self.rows * self.cols
    }

    // North, west, east and south come in ascending order.
    fn onward(&self, p: usize, q: usize) -> Option<usize> {
        let points = self.count();
        if p >= points {
            return None;
        }
        let row = self.row(p);
        let west = self.row(p.saturating_sub(1));
        let east = self.row(p + 1);
        if self.cols <= p && q <= p - self.cols {
            return Some(p - self.cols);
        }
        if q < p && west == row {
            return Some(p - 1);
        }
        if q <= p + 1 && p + 1 < points && row == east {
            return Some(p + 1);
        }
        if q <= p + self.cols && p + self.cols < points {
            return Some(p + self.cols);
        }
        None
    }

    // Neighbours lead to one another.
    fn inward(&self, p: usize, q: usize) -> Option<usize> {
        self.onward(p, q)
    }
}
