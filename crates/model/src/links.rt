// The test of a link list, for floors and calendars alike.
ghost use Rattle.std.specs.Prelude.{◌≡◌};
ghost use Rattle.model.specs.Calls.{answer};
ghost use Rattle.model.specs.Links.{past};
ghost use Rattle.model.specs.Refusals.{links_refusal};

use crate::refusal::Refusal;

// Whether some number of the list is not below the count.
fn passes_count(count: usize, pairs: &[u32]) -> bool
    ensures { result ≡ past count pairs.now }
{
    pairs.iter().any(|x| *x as usize >= count)
}

// Whether the list can be linked, or why not: it is odd, longer than 65,536 pairs, or has a number that is not below the count.
pub(crate) fn check_links(count: usize, pairs: &[u32]) -> Result<(), Refusal>
    ensures { result ≡ answer (links_refusal count pairs.now) tt }
{
    if pairs.len() % 2 == 1 || pairs.len() > 131072 || passes_count(count, pairs) {
        return Err(Refusal::LinkList);
    }
    Ok(())
}
