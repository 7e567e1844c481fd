//! A claim: insert-if-absent along the probe path of a key.
//!
//! Before you change this: a key is put into a word only where the pass has notes of other keys at
//! every earlier word of the key's path (`IsNext`). A word that holds a key never changes. So the
//! key can't stand before that word, by the notes, and not behind it, since no stored key has an
//! empty word before it on its path. This is why no key is ever stored twice, whatever other
//! threads do meanwhile.

ghost use Rattle.std.specs.Prelude.{◌%◌, ◌+◌, ◌/◌, ◌<◌, ◌^◌, ◌≡◌, ◌≢◌, ◌≤◌, length, slice_index};
ghost use Rattle.mb_claims.specs.ClaimStep.{IsNext, tried};
ghost use Rattle.mb_claims.specs.Claims.{Answers, IsPassOf};
ghost use Rattle.mb_claims.specs.Notes.{Keeps};
ghost use Rattle.mb_claims.specs.Probe.{shard_of, start_of};

use crate::rule::Tries;
use crate::seats::Pass;
use crate::shards::Shards;

/// What a claim of a key answers.
#[derive(Clone, Copy, Debug, PartialEq, Eq)]
pub enum Claim {
    /// The key was absent, and this claim stored it.
    New,
    /// The key is stored.
    Seen,
    /// The key is absent, and its shard, which is named, has no room: each word holds another key.
    Full { shard: u32 },
}

/// Where the probe path of a key begins: its shard, the first word of the shard, how many words the
/// shard has, and which of them comes first.
#[derive(Clone, Copy)]
struct Home {
    shard: u32,
    start: usize,
    words: usize,
    at: usize,
}

impl Shards {
    /// Claims a key for a pass: stores it unless it is stored. Any number of threads may claim at
    /// once, each by a pass of its own. A claim waits for nobody and takes no memory.
    ///
    /// A key's shard is `key % shards`. Its probe path begins at word `(key / shards) % words` of
    /// the shard and goes up by one, from the last word to word 0, once around all words of the
    /// shard. At each word the claim makes one compare-and-exchange from 0 to the key, and no load
    /// before it; where the exchange fails, the number that it read decides. Exchanges are
    /// sequentially consistent, and the last one is the moment at which the claim takes effect.
    ///
    /// `New`: until the exchange no word held the key; it joins the keys that the pass won. No
    /// other claim of the key, by any pass, is ever answered so. `Seen`: a word holds the key, and
    /// the pass has a note of it. `Full`: each word of the key's shard holds another key, and the
    /// pass has a note of each. Notes made before are kept.
    pub fn claim(&self, pass: &mut Pass, key: u64) -> Claim
        requires ours { IsPassOf self.now pass.old }
        requires key { key ≢ 0 }
        ensures answer { Answers self.now.sizes key pass.old.knows pass.new.knows result }
        ensures ours { IsPassOf self.now pass.new }
        ensures number { pass.new.knows.number ≡ pass.old.knows.number }
        ensures notes { Keeps pass.old.knows.notes pass.new.knows.notes }
    {
        let home = self.home(key);
        let mut at = home.at;
        for _ in 0..home.words {
            let found = self.try_place(pass, home.start + at, key);
            if found == 0 {
                return Claim::New;
            }
            if found == key {
                return Claim::Seen;
            }
            at = after(at, home.words);
        }
        Claim::Full { shard: home.shard }
    }

    /// Reads the word where the probe path of a key begins, and tells nothing: a claim of the key
    /// soon after has no wait for the memory. Reads of many words are under way at once, while an
    /// exchange waits for the one before it. It is a step of no pass, and any thread may make it.
    #[inline(always)]
    pub fn prefetch(&self, key: u64) {
        let home = self.home(key);
        self.table.shared.peek(home.start + home.at);
    }

    /// Where the probe path of a key begins.
    fn home(&self, key: u64) -> Home
        ensures shard { result.shard ≡ shard_of self.now.sizes key }
        ensures start { result.start ≡ start_of self.now.sizes result.shard }
        ensures words { result.words ≡ slice_index self.now.sizes result.shard }
        ensures at { result.at ≡ (key / length self.now.sizes) % result.words }
        ensures some { 1 ≤ result.words }
        ensures ends { result.start + result.words ≤ 2 ^ 28 }
    {
        let shards = self.sizes.len() as u64;
        let (shard, rest) = divided(key, shards);
        let shard = shard as usize;
        let words = self.sizes[shard];
        Home {
            shard: shard as u32,
            start: self.starts[shard],
            words,
            at: (rest % words as u64) as usize,
        }
    }

    /// Tries to store the key at the next place of its path, and gives the number that the word
    /// had.
    fn try_place(&self, pass: &mut Pass, place: usize, key: u64) -> u64
        requires ours { IsPassOf self.now pass.old }
        requires next { IsNext self.now.sizes pass.old.knows key place }
        ensures table { pass.new.table ≡ pass.old.table }
        ensures tried { pass.new.knows ≡ tried pass.old.knows place key result }
    {
        self.table
            .shared
            .compare_exchange::<Tries>(&mut pass.seat, place, 0, key)
    }
}

/// The number of shards for which the choice of a key's shard is a division by a constant.
pub const USUAL_SHARDS: u32 = 13;

/// The remainder and the quotient of a key by the number of shards. Where there is one shard two
/// divisions are spared; where there are as many as usual the divisor is a constant, so that the
/// compiler multiplies in place of dividing.
#[inline(always)]
fn divided(key: u64, shards: u64) -> (u64, u64)
    requires some { 1 ≤ shards }
    ensures remainder { result.0 ≡ key % shards }
    ensures quotient { result.1 ≡ key / shards }
{
    if shards == 1 {
        (0, key)
    } else if shards == u64::from(USUAL_SHARDS) {
        (key % u64::from(USUAL_SHARDS), key / u64::from(USUAL_SHARDS))
    } else {
        (key % shards, key / shards)
    }
}

/// The word after one of so many, once around.
fn after(at: usize, words: usize) -> usize
    requires { at < words }
    ensures { result ≡ (at + 1) % words }
{
    if at + 1 == words { 0 } else { at + 1 }
}
