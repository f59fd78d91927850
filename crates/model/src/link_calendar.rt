// The link calendar: days and links given by a list of pairs.
ghost use Rattle.std.specs.Prelude.{◌≡◌, ℕ, ◌<◌, ◌≤◌, true, not, ◌&&◌, ◌||◌, [], ◌∷◌, length, IfOk, OnErr, OnOk, ◌==◌, slice_index};
ghost use Rattle.std.specs.Int.Count.{count_trailing_zeros};
ghost use Rattle.std.specs.Result.{result_err};
ghost use Rattle.model.specs.Links.{listed, ListedByAPair};
ghost use Rattle.model.specs.Masks.{bit, masked};
ghost use Rattle.model.specs.Numbers.{any, Least};
ghost use Rattle.model.specs.Refusals.{link_calendar_refusal};
ghost use Rattle.model.specs.Relations.{Inside};
ghost use Rattle.std.proofs.Common.{rules, arith};

use crate::calendar::Calendar;
use crate::chain::check_days;
use crate::floor::Floor;
use crate::links::check_links;
use crate::refusal::Refusal;

// Two rows of masks, arrays, since the crate has no heap: bit e of next[d] says that day d leads to day e, and so does bit d of prev[e].
#[derive(Drop)]
pub struct LinkCalendar {
    days: usize,
    next: [u64; 64],
    prev: [u64; 64],
    ghost some: { 1 ≤ days },
    ghost few: { days ≤ 64 },
    // only days lead anywhere, and only to days
    ghost inside: { Inside days (masked next) },
    // the second row is the first turned
    ghost back: { (d e : ℕ) → masked prev d e ≡ masked next e d },
    // each day leads to the lowest day of its mask
    ghost onto: { (d : ℕ) → d < days → masked next d (count_trailing_zeros 64 (slice_index next d)) ≡ true },
}

// Adds the link to the masks.
fn link(masks: &mut [u64; 64], from: u32, to: u32)
    requires from { from < 64 }
    requires to { to < 64 }
    ensures { (p q : ℕ) → masked masks.new p q ≡ (masked masks.old p q || (from == p && to == q)) }
{
    masks[from as usize] |= 1 << to;
}

// The masks of the days to which each day leads, and of the days that lead to it.
fn masks_of(pairs: &[u32]) -> ([u64; 64], [u64; 64])
    requires { (k : ℕ) → k < length pairs.now → slice_index pairs.now k < 64 }
    ensures next { (p q : ℕ) → masked result.0 p q ≡ listed pairs.now p q }
    ensures prev { (p q : ℕ) → masked result.1 p q ≡ listed pairs.now q p }
{
    let mut next = [0; 64];
    let mut prev = [0; 64];
    for pair in pairs.as_chunks::<2>().0 {
        link(&mut next, pair[0], pair[1]);
        link(&mut prev, pair[1], pair[0]);
    }
    (next, prev)
}

// Whether some day leads nowhere.
fn has_dead_end(days: usize, next: &[u64; 64]) -> bool
    requires { days ≤ 64 }
    ensures { result ≡ any days (λ d. not (any 64 (masked next.now d))) }
{
    next[..days].contains(&0)
}

// The least day of the mask from `from` on.
fn lowest(mask: u64, from: usize) -> Option<usize>
    ensures { Least (bit mask) from 64 result }
{
    if from >= 64 {
        return None;
    }
    let rest = mask >> from;
    if rest == 0 {
        return None;
    }
    Some(from + rest.trailing_zeros() as usize)
}

impl LinkCalendar {
    // One day that leads to itself.
    pub fn new() -> LinkCalendar
        ensures days { result.days ≡ 1 }
        ensures leads { (p q : ℕ) → masked result.next p q ≡ listed (0 ∷ 0 ∷ []) p q }
    {
        LinkCalendar::of_list(1, &[0, 0]).unwrap()
    }

    // Fills the place with 1 to 64 days and the links of the list; a refusal changes nothing.
    #[tactic(auto, using(crate::proofs::Pairs::listed_by_a_pair))]
    pub fn fill(&mut self, days: usize, pairs: &[u32]) -> Result<(), Refusal>
        ensures refusal { result_err result ≡ link_calendar_refusal days pairs.now }
        ensures days { OnOk result (self.new.days ≡ days) }
        ensures leads { OnOk result ((p q : ℕ) → masked self.new.next p q ≡ listed pairs.now p q) }
        ensures kept { OnErr result (self.new ≡ self.old) }
        ensures reads { ListedByAPair pairs.now }
    {
        *self = LinkCalendar::of_list(days, pairs)?;
        Ok(())
    }

    // The calendar of the list, or why it makes none.
    fn of_list(days: usize, pairs: &[u32]) -> Result<LinkCalendar, Refusal>
        ensures refusal { result_err result ≡ link_calendar_refusal days pairs.now }
        ensures days { IfOk result (λ c. c.days ≡ days) }
        ensures leads { IfOk result (λ c. (p q : ℕ) → masked c.next p q ≡ listed pairs.now p q) }
    {
        check_links(days, pairs)?;
        check_days(days)?;
        let (next, prev) = masks_of(pairs);
        if has_dead_end(days, &next) {
            return Err(Refusal::DeadEnd);
        }
        Ok(LinkCalendar { days, next, prev })
    }
}

impl Floor for LinkCalendar {
    ghost points = { λ c. c.days };

    ghost leads = { λ c. masked c.next };

    ghost some = { Prim.search rules };

    ghost few = { Prim.search rules };

    ghost inside = { Prim.search rules };

    fn count(&self) -> usize {
        self.days
    }

    // Asked of the days' part of the row, here and in `inward`: of the whole row it was tried, and takes 17 in 100 more instructions. Each is
    // one call on a row of its own; a flag would be longer.
    fn onward(&self, p: usize, q: usize) -> Option<usize> {
        lowest(*self.next[..self.days].get(p)?, q)
    }

    fn inward(&self, p: usize, q: usize) -> Option<usize> {
        lowest(*self.prev[..self.days].get(p)?, q)
    }
}

impl Calendar for LinkCalendar {
    ghost unending = { λ c d h. (count_trailing_zeros 64 (slice_index c.next d), c.onto d h) };

    fn morrow(&self, d: usize) -> usize {
        if d >= self.days {
            return self.days;
        }
        self.next[d].trailing_zeros() as usize
    }
}
