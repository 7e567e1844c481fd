//! How many words a shard is given.

ghost use Rattle.std.specs.Prelude.{◌≤◌};
ghost use Rattle.mb_claims.specs.Limits.{most_words};

use mb_claims::MOST_WORDS;

/// The most words that a shard is given.
const LARGEST: u32 = 1_966_793;

/// The other sizes of shards, from the largest down, each some half of the one before.
///
/// The place of a key is what is left of it by the number of words. The least significant cells
/// make dense runs of keys, which lie on each other where that number is close to a multiple of a
/// place value, a power of 9 as it may be. So these are primes, the larger ones far from the
/// multiples of small powers.
const SMALLER: [u32; 15] = [
    940_001, 473_741, 237_631, 117_037, 57_697, 28_859, 14_423, 7211, 3607, 1811, 907, 457, 227,
    113, 53,
];

/// The least size of a shard that has so many words, or the largest size where none has.
pub fn words_for(least: u64) -> u32
    ensures enough { least ≤ 1_966_793 → least ≤ result }
    ensures some { 1 ≤ result }
    ensures most { result ≤ most_words }
{
    let mut words = LARGEST;
    for size in SMALLER {
        let size = size.clamp(1, MOST_WORDS);
        if least <= u64::from(size) {
            words = size;
        }
    }
    words
}
