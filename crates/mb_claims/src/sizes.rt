//! How many shards there are, and how many words each has.

ghost use Rattle.std.specs.Prelude.{◌*◌, ◌<◌, ◌≡◌, ◌≤◌, length, slice_index};
ghost use Rattle.mb_claims.specs.Limits.{most_shards, most_words};

use crate::shards::Shards;

impl Shards {
    /// The number of shards, 1 to 64.
    pub fn len(&self) -> u32
        ensures shards { result ≡ length self.now.sizes }
        ensures some { 1 ≤ result }
        ensures few { result ≤ most_shards }
    {
        self.sizes.len() as u32
    }

    /// The number of words of a shard: 1 or more. Shards count from 0.
    pub fn words(&self, shard: u32) -> u32
        requires { shard < length self.now.sizes }
        ensures words { result ≡ slice_index self.now.sizes shard }
        ensures some { 1 ≤ result }
        ensures most { result ≤ 2 * most_words }
    {
        self.sizes[shard as usize] as u32
    }
}
