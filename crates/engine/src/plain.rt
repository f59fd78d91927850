// The kinds whose word depends on the same day and point alone: P, ! and O. Each word is written by its index, since a proof loses what is
// written through `iter_mut`.
ghost use Rattle.std.specs.Prelude.{◌≡◌, ◌<◌, ◌≤◌, not, ◌||◌, length, slice_index};
ghost use Rattle.model.specs.Masks.{bit};
ghost use Rattle.model.specs.Table.{word, says_yes};
ghost use Rattle.engine.specs.Filling.{Made};

// The reading of an atom.
pub(crate) fn fill_reading(readings: &[u32], atom: u32, line: &mut [u32])
    requires held { length line.old ≤ length readings.now }
    requires atom { atom < 32 }
    ensures { Made (λ k. word (bit (slice_index readings.now k) atom) 0) line.new }
{
    for k in 0..line.len() {
        line[k] = (readings[k] >> atom) % 2;
    }
}

// Left is no.
pub(crate) fn fill_not(left: &[u32], line: &mut [u32])
    requires { length left.now ≡ length line.old }
    ensures { Made (λ k. word (not (says_yes (slice_index left.now k))) 0) line.new }
{
    for k in 0..line.len() {
        line[k] = 1 - left[k] % 2;
    }
}

// Left or right is yes.
pub(crate) fn fill_or(left: &[u32], right: &[u32], line: &mut [u32])
    requires { (length left.now ≡ length line.old) × (length right.now ≡ length line.old) }
    ensures { Made (λ k. word (says_yes (slice_index left.now k) || says_yes (slice_index right.now k)) 0) line.new }
{
    for k in 0..line.len() {
        line[k] = (left[k] % 2).max(right[k] % 2);
    }
}
