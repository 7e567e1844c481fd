//! The cache of a worker: keys that it knows to be stored, each at a place of its own.
//!
//! It is direct-mapped: a key has one place, and the last key remembered there stays. The place is
//! made of the rank of the key's table, since tables that follow one another in a ring have steps
//! to tables whose ranks lie near each other. Words of 32 bits do where every key fits one: the
//! cache then takes half the memory, and holds as many keys.

ghost use Rattle.std.specs.Bool.{OnTrue};
ghost use Rattle.std.specs.Prelude.{◌≡◌, ◌⊎◌, length, ℕ};
ghost use Rattle.mb_tables.specs.Lists.{In};

use std::alloc::Global;
use std::marker::Model;

/// The most words of all caches together.
const MOST_CACHED: usize = 1 << 20;

/// What the number of a rank's higher bits is multiplied by, an odd number near 2^32 over the
/// golden ratio.
const SPREAD: u64 = 2_654_435_761;

/// The words of a cache, as wide as its keys; 0 stands where there is none.
#[derive(Drop)]
enum Words {
    Narrow(Vec<u32>),
    Wide(Vec<u64>),
}

/// Keys that a worker knows to be stored. It is seen as the list of its words.
#[derive(Drop)]
pub struct Cache {
    words: Words,
}

impl Model for Cache {
    ghost use Rattle.std.specs.Prelude.{List, ℕ};
    ghost use Rattle.mb_keyed.specs.loops.Cached.{cached};

    ghost Value = { List ℕ };

    ghost view = { λ c. cached c.words };
}

impl Cache {
    ghost use Rattle.std.specs.Bool.{OnTrue};
    ghost use Rattle.std.specs.Prelude.{◌≡◌, ◌≢◌, ◌⊎◌, ℕ};
    ghost use Rattle.mb_tables.specs.Lists.{In};

    /// One of so many caches for the tables of a ring, without keys. Where memory is wanting it has
    /// no words, and keeps no key. A narrow one keeps keys below 2^32 alone.
    pub fn new(alloc: Global, tables: usize, caches: usize, is_narrow: bool) -> Cache
        ensures { (key : ℕ) → In key result → key ≡ 0 }
    {
        let count = cache_words(tables, caches);
        if is_narrow {
            Cache {
                words: Words::Narrow(narrow_words(alloc, count)),
            }
        } else {
            Cache {
                words: Words::Wide(wide_words(alloc, count)),
            }
        }
    }

    /// Whether the key of a table of this rank stands at its place.
    #[inline(always)]
    pub fn has(&self, rank: u64, key: u64) -> bool
        ensures { OnTrue result (In key self.now) }
    {
        match &self.words {
            Words::Narrow(words) => has_narrow(words.as_slice(), rank, key),
            Words::Wide(words) => has_wide(words.as_slice(), rank, key),
        }
    }

    /// Puts the key of a table of this rank at its place, if there is such a place and the key fits
    /// a word.
    #[inline(always)]
    pub fn remember(&mut self, rank: u64, key: u64)
        ensures { (k : ℕ) → In k self.new → In k self.old ⊎ (k ≡ key) }
    {
        match &mut self.words {
            Words::Narrow(words) => put_narrow(words.as_mut_slice(), rank, key),
            Words::Wide(words) => put_wide(words.as_mut_slice(), rank, key),
        }
    }
}

/// The words of each of so many caches for a ring of so many tables, a power of two: some eight for
/// each of a cache's tables, as long as all caches together stay small.
fn cache_words(tables: usize, caches: usize) -> usize {
    let words = tables.saturating_mul(8).min(MOST_CACHED);
    let share = words / caches.max(1);
    1 << share.max(1).ilog2()
}

/// So many words of 32 bits that are 0, or none where memory is wanting.
fn narrow_words(alloc: Global, words: usize) -> Vec<u32>
    ensures { (key : ℕ) → In key result.items → key ≡ 0 }
{
    match vec![in alloc; 0u32; words] {
        Ok(zeros) => zeros,
        Err(_) => Vec::new(alloc),
    }
}

/// The same, of 64 bits.
fn wide_words(alloc: Global, words: usize) -> Vec<u64>
    ensures { (key : ℕ) → In key result.items → key ≡ 0 }
{
    match vec![in alloc; 0u64; words] {
        Ok(zeros) => zeros,
        Err(_) => Vec::new(alloc),
    }
}

/// The place of a table of this rank among so many words, a power of two. Where ranks are below
/// their number, each has a place of its own. The higher bits move the places of a run of ranks as
/// a whole: by the last bits alone, runs whose distance is close to a multiple of the number of
/// words would lie on each other.
#[inline(always)]
fn place_of(rank: u64, words: usize) -> usize {
    let high = rank >> words.max(1).ilog2().min(63);
    let moved = rank.wrapping_add(high.wrapping_mul(SPREAD));
    moved as usize & words.wrapping_sub(1)
}

/// Whether the key of a table of this rank stands at its place among words of 32 bits.
#[inline(always)]
fn has_narrow(words: &[u32], rank: u64, key: u64) -> bool
    ensures { OnTrue result (In key words.now) }
{
    let at = place_of(rank, words.len());
    at < words.len() && u64::from(words[at]) == key
}

/// The same, of 64 bits.
#[inline(always)]
fn has_wide(words: &[u64], rank: u64, key: u64) -> bool
    ensures { OnTrue result (In key words.now) }
{
    let at = place_of(rank, words.len());
    at < words.len() && words[at] == key
}

/// Puts the key of a table of this rank at its place, if there is such a place and the key fits 32
/// bits.
#[inline(always)]
fn put_narrow(words: &mut [u32], rank: u64, key: u64)
    ensures length { length words.new ≡ length words.old }
    ensures kept { (k : ℕ) → In k words.new → In k words.old ⊎ (k ≡ key) }
{
    let at = place_of(rank, words.len());
    if at < words.len() && key <= 4_294_967_295 {
        words[at] = key as u32;
    }
}

/// The same, of 64 bits.
#[inline(always)]
fn put_wide(words: &mut [u64], rank: u64, key: u64)
    ensures length { length words.new ≡ length words.old }
    ensures kept { (k : ℕ) → In k words.new → In k words.old ⊎ (k ≡ key) }
{
    let at = place_of(rank, words.len());
    if at < words.len() {
        words[at] = key;
    }
}
