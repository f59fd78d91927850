// One number for a whole book.
ghost use Rattle.std.specs.Prelude.{◌≡◌};
ghost use Rattle.bench.specs.Checksums.{checksum_of};

// Each word is added to 16,777,619 times the sum so far, in 32 bits.
pub(crate) fn checksum(words: &[u32]) -> u32
    ensures { result ≡ checksum_of words.now }
{
    words.iter().fold(2166136261, |sum: u32, word| {
        sum.wrapping_mul(16777619).wrapping_add(*word)
    })
}
