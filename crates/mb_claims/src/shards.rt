//! Shards: how they are made, and how their root opens and gathers passes.

ghost use Rattle.std.specs.Prelude.{
  ◌*◌,
  ◌<◌,
  ◌≡◌,
  ◌≤◌,
  IfOk,
  OnErr,
  OnOk,
  [],
  length,
  replicate,
  slice_index,
  sum,
  ℕ,
};
ghost use Rattle.mb_claims.specs.ClaimStep.{begins, gathers, opens};
ghost use Rattle.mb_claims.specs.Claims.{IsNewRoot, IsPassOf, IsRootOf, doubled, widened};
ghost use Rattle.mb_claims.specs.Closed.{ClosesAll};
ghost use Rattle.mb_claims.specs.Limits.{most_shards, most_words};
ghost use Rattle.mb_claims.specs.loops.Parts.{AreSizes, AreStarts};
ghost use Rattle.mb_claims.specs.loops.Stored.{Stores};

use crate::old_words::OldWords;
use crate::rule::{ClaimRule, Gathers, Looks, Opens};
use crate::seats::{Pass, Root};
use crate::views::View;
use atomic_table::Table;
use mb_tables::OutOfMemory;
use std::alloc::Global;
use std::marker::Model;

/// The most words of a new shard, and of one that grows: a shard has at most twice as many.
pub const MOST_WORDS: u32 = 2_097_152;

const _: () = prove!(MOST_WORDS == 2_097_152);

/// A set of keys above 0, that threads fill at once: 1 to 64 shards of words, each of them 0 or a
/// key, one shard after the other in one table of words.
///
/// It is seen as this table of words and the number of words of each shard. What stands in the
/// words shows in the views of those who step on them.
#[derive(Drop)]
pub struct Shards {
    pub(crate) table: Table<u8, View, Vec<usize>, ClaimRule, Global>,
    pub(crate) sizes: Vec<usize>,
    pub(crate) starts: Vec<usize>,
}

impl Model for Shards {
    ghost use Rattle.mb_claims.specs.Claims.{ShardWords};
    ghost use Rattle.mb_claims.specs.loops.Parts.{AreShardParts};

    ghost Value = { ShardWords };

    ghost view = { λ s. record { table = s.table.shared.table_id; sizes = s.sizes.items } };

    ghost invariant = { λ s.
        AreShardParts s.table.shared.table_id s.table.shared.key.items s.sizes.items
        s.starts.items };
}

impl Shards {
    /// An empty set of 1 to 64 shards, of 1 to 2,097,152 words each, and its root, which has opened
    /// no pass and gathered nothing.
    pub fn try_new(alloc: Global, shards: u32, words: u32) -> Result<(Shards, Root), OutOfMemory>
        requires some { 1 ≤ shards }
        requires few { shards ≤ most_shards }
        requires filled { 1 ≤ words }
        requires small { words ≤ most_words }
        ensures sizes { IfOk result (λ made. made.0.sizes ≡ replicate shards words) }
        ensures ours { IfOk result (λ made. IsRootOf made.0 made.1) }
        ensures empty { IfOk result (λ made. IsNewRoot made.1.knows) }
    {
        let sizes = vec![in alloc; words as usize; shards as usize]?;
        Shards::made(alloc, sizes)
    }

    /// An empty set of shards of these sizes, and its root.
    pub(crate) fn made(alloc: Global, sizes: Vec<usize>) -> Result<(Shards, Root), OutOfMemory>
        requires { AreSizes sizes.items }
        ensures sizes { IfOk result (λ made. made.0.sizes ≡ sizes.items) }
        ensures ours { IfOk result (λ made. IsRootOf made.0 made.1) }
        ensures empty { IfOk result (λ made. IsNewRoot made.1.knows) }
    {
        let (starts, total) = laid(alloc, sizes.as_slice())?;
        let words = zeros(alloc, total)?;
        let (table, seat) = Table::of_words(alloc, words.as_slice(), &sizes)?;
        Ok((
            Shards {
                table,
                sizes,
                starts,
            },
            Root { seat },
        ))
    }

    /// Opens a pass, which has won nothing and has no notes. It takes no memory, and so it is never
    /// refused. After a refusal the root is as it was.
    pub fn split(&self, root: &mut Root) -> Result<Pass, OutOfMemory>
        requires ours { IsRootOf self.now root.old }
        ensures pass { IfOk result (λ pass. pass.knows ≡ begins root.old.knows) }
        ensures pass_ours { IfOk result (IsPassOf self.now) }
        ensures opened { OnOk result (root.new.knows ≡ opens root.old.knows) }
        ensures same { OnErr result (root.new ≡ root.old) }
        ensures ours { IsRootOf self.now root.new }
    {
        Ok(Pass {
            seat: self.table.shared.split_seat::<Opens>(&mut root.seat),
        })
    }

    /// Closes a pass: the keys that it won join the gathered ones, and its notes the root's. Where
    /// no pass is open then, each stored key is gathered, once. It takes no memory.
    pub fn gather(&self, root: &mut Root, pass: Pass)
        requires root_ours { IsRootOf self.now root.old }
        requires pass_ours { IsPassOf self.now pass }
        ensures gathered { root.new.knows ≡ gathers root.old.knows pass.knows }
        ensures closed { ClosesAll root.new.knows }
        ensures ours { IsRootOf self.now root.new }
    {
        let Pass { seat } = pass;
        self.table.shared.join_seat::<Gathers>(&mut root.seat, seat);
        self.table.shared.load::<Looks>(&mut root.seat, 0);
    }

    /// The sizes, of which one is doubled.
    pub(crate) fn doubled_sizes(
        &self,
        alloc: Global,
        shard: usize,
    ) -> Result<Vec<usize>, OutOfMemory>
        requires there { shard < length self.now.sizes }
        requires small { slice_index self.now.sizes shard ≤ most_words }
        ensures doubled { IfOk result (λ sizes. sizes.items ≡ doubled self.now.sizes shard) }
        ensures fit { IfOk result (λ sizes. AreSizes sizes.items) }
    {
        let mut sizes = Vec::from_slice(alloc, self.sizes.as_slice())?;
        sizes[shard] = 2 * sizes[shard];
        Ok(sizes)
    }

    /// The sizes, each of them at least so many words.
    pub(crate) fn widened_sizes(
        &self,
        alloc: Global,
        words: usize,
    ) -> Result<Vec<usize>, OutOfMemory>
        requires { words ≤ most_words }
        ensures widened { IfOk result (λ sizes. sizes.items ≡ widened words self.now.sizes) }
        ensures fit { IfOk result (λ sizes. AreSizes sizes.items) }
    {
        let mut sizes = Vec::with_capacity(alloc, self.sizes.len())?;
        for size in self.sizes.as_slice() {
            sizes.push(words.max(*size))?;
        }
        Ok(sizes)
    }

    /// The words as they are at the end. Where no pass is open, they store the gathered keys.
    pub(crate) fn close(self, root: Root) -> OldWords
        requires ours { IsRootOf self root }
        requires none_open { root.knows.opened ≡ [] }
        ensures { Stores self.sizes result root.knows.gathered }
    {
        let Shards {
            table,
            sizes: _,
            starts: _,
        } = self;
        let Root { seat } = root;
        OldWords::of(table.close_with(seat))
    }
}

/// The first word of each shard, and the number of all words.
fn laid(alloc: Global, sizes: &[usize]) -> Result<(Vec<usize>, usize), OutOfMemory>
    requires { AreSizes sizes.now }
    ensures starts { IfOk result (λ made. AreStarts sizes.now made.0.items) }
    ensures total { IfOk result (λ made. made.1 ≡ sum sizes.now) }
{
    let mut starts = Vec::with_capacity(alloc, sizes.len())?;
    let mut total = 0;
    for size in sizes {
        starts.push(total)?;
        total += *size;
    }
    Ok((starts, total))
}

/// So many words that are 0.
fn zeros(alloc: Global, words: usize) -> Result<Vec<u64>, OutOfMemory>
    ensures { IfOk result (λ zeros. zeros.items ≡ replicate words 0) }
{
    let zeros = vec![in alloc; 0u64; words]?;
    Ok(zeros)
}
