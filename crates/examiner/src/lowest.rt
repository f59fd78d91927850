// The lowest number among the points to which a point leads, as far as they count.
ghost use Rattle.std.specs.Prelude.{◌≡◌, ℕ, Bool, ◌&&◌, if◌then◌else◌, Some, None};
ghost use Rattle.model.specs.Numbers.{lower_of, lowest};

use model::Floor;

// Which points count, and by what number.
pub(crate) trait Candidates {
    // which points count
    ghost counts: { Self → ℕ → Bool };

    // the number of a point
    ghost number: { Self → ℕ → ℕ };

    // The number of point k where it counts.
    fn number_of(&self, k: usize) -> Option<u32>
        ensures { result ≡ (if counts self.now k then Some (number self.now k) else None) };
}

// The lower of two numbers, as far as there are any.
fn lower(a: Option<u32>, b: Option<u32>) -> Option<u32>
    ensures { result ≡ lower_of a b }
{
    match (a, b) {
        (Some(m), Some(n)) => Some(m.min(n)),
        (None, _) => b,
        (_, None) => a,
    }
}

// The lowest number of the points to which p leads and that count. `filter_map` and `min` were tried: the proof did not close.
pub(crate) fn lowest<F: Floor, C: Candidates>(floor: &F, candidates: &C, p: usize) -> Option<u32>
    ensures { result ≡ lowest (F.Floor.points floor.now) (λ k. F.Floor.leads floor.now p k && C.Candidates.counts candidates.now k) (C.Candidates.number candidates.now) }
{
    let mut best: Option<u32> = None;
    for k in floor.after(p) {
        best = lower(best, candidates.number_of(k));
    }
    best
}
