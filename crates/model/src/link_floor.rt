// The link floor: points and links given by a list of pairs.
ghost use Rattle.std.specs.Prelude.{◌≡◌, ℕ, ◌≤◌, [], OnErr, OnOk};
ghost use Rattle.std.specs.Result.{result_err};
ghost use Rattle.model.specs.Links.{listed, ListedByAPair};
ghost use Rattle.model.specs.Refusals.{link_floor_refusal};
ghost use Rattle.model.specs.Rows.{row_leads};
ghost use Rattle.std.proofs.Common.{rules, arith};

use crate::adjacency::OrderedRows;
use crate::floor::Floor;
use crate::links::check_links;
use crate::refusal::Refusal;

// A row of points for each point: in `out` those that it leads to, in `into` those that lead to it.
#[derive(Drop)]
pub struct LinkFloor {
    out: OrderedRows,
    into: OrderedRows,
    ghost some: { 1 ≤ out.count },
    ghost same: { into.count ≡ out.count },
    // the second rows are the first turned
    ghost back: { (p q : ℕ) → row_leads into.count into.rows.starts into.rows.cells p q ≡ row_leads out.count out.rows.starts out.rows.cells q p },
}

impl LinkFloor {
    // One point without links.
    pub fn new() -> LinkFloor
        ensures count { result.out.count ≡ 1 }
        ensures leads { (p q : ℕ) → row_leads result.out.count result.out.rows.starts result.out.rows.cells p q ≡ listed [] p q }
    {
        LinkFloor {
            out: OrderedRows::empty(1),
            into: OrderedRows::empty(1),
        }
    }

    // Fills the place with 1 to 4,096 points and the links of the list; a refusal changes nothing.
    #[tactic(auto, using(crate::proofs::Pairs::listed_by_a_pair))]
    pub fn fill(&mut self, count: usize, pairs: &[u32]) -> Result<(), Refusal>
        ensures refusal { result_err result ≡ link_floor_refusal count pairs.now }
        ensures count { OnOk result (self.new.out.count ≡ count) }
        ensures leads { OnOk result ((p q : ℕ) → row_leads self.new.out.count self.new.out.rows.starts self.new.out.rows.cells p q ≡ listed pairs.now p q) }
        ensures kept { OnErr result (self.new ≡ self.old) }
        ensures reads { ListedByAPair pairs.now }
    {
        if count == 0 || count > 4096 {
            return Err(Refusal::FloorSize);
        }
        check_links(count, pairs)?;
        self.out.fill(&mut self.into, count, pairs);
        Ok(())
    }
}

impl Floor for LinkFloor {
    ghost points = { λ f. f.out.count };

    ghost leads = { λ f. row_leads f.out.count f.out.rows.starts f.out.rows.cells };

    ghost some = { Prim.search rules };

    ghost few = { Prim.search rules };

    ghost inside = { Prim.search rules };

    fn count(&self) -> usize {
        self.out.count
    }

    // Here, in `inward` and in both with a hint: one call on rows of their own; a flag would be longer.
    fn onward(&self, p: usize, q: usize) -> Option<usize> {
        self.out.next(p, q)
    }

    fn inward(&self, p: usize, q: usize) -> Option<usize> {
        self.into.next(p, q)
    }

    fn onward_near(&self, p: usize, q: usize, hint: &mut usize) -> Option<usize> {
        self.out.next_near(p, q, hint)
    }

    fn inward_near(&self, p: usize, q: usize, hint: &mut usize) -> Option<usize> {
        self.into.next_near(p, q, hint)
    }
}
