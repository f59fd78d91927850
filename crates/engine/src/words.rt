// Reading answers off a stretch of words, and off a mask. The examiner has its own, since it takes nothing from the engine.
ghost use Rattle.std.specs.Prelude.{◌≡◌, slice_index};
ghost use Rattle.model.specs.Masks.{bit};
ghost use Rattle.model.specs.Table.{says_yes};

// Whether the word at x is yes; no past the end.
pub(crate) fn is_yes(words: &[u32], x: usize) -> bool
    ensures { result ≡ says_yes (slice_index words.now x) }
{
    x < words.len() && words[x] % 2 == 1
}

// Whether bit d of the mask is set; no past its end.
pub(crate) fn is_set(mask: u64, d: usize) -> bool
    ensures { result ≡ bit mask d }
{
    d < 64 && (mask >> d) % 2 == 1
}
