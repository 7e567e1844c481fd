//! Shards grow: new shards, in which one has twice the words, or each at least so many, and all
//! keys are claimed anew.

ghost use Rattle.std.specs.Prelude.{
  ◌<◌,
  ◌∷◌,
  ◌≡◌,
  ◌≢◌,
  ◌≤◌,
  ◌↔◌,
  ◌⊎◌,
  IfErr,
  IfOk,
  OnErr,
  OnOk,
  [],
  length,
  slice_index,
  ℕ,
};
ghost use Rattle.mb_claims.specs.Claims.{IsPassOf, IsRootOf, doubled, widened};
ghost use Rattle.mb_claims.specs.Closed.{ClosesAll};
ghost use Rattle.mb_claims.specs.Limits.{most_words};
ghost use Rattle.mb_claims.specs.Notes.{Keeps};
ghost use Rattle.mb_claims.specs.Probe.{Holds};
ghost use Rattle.mb_claims.specs.loops.Parts.{AreSizes};
ghost use Rattle.mb_claims.specs.loops.Stored.{IsTold};
ghost use Rattle.mb_tables.specs.Lists.{In};

use crate::old_words::OldWords;
use crate::seats::{Pass, Root};
use crate::shards::Shards;
use mb_tables::OutOfMemory;
use std::alloc::Global;
use std::mem;

impl Shards {
    /// The same set with twice the words in one shard, which has at most 2,097,152. No pass is
    /// open. Every other shard keeps its size, the same keys are stored and gathered, and the root
    /// belongs to the new shards. Its notes are made anew, since keys have new places.
    ///
    /// Only the new sizes and words take memory. They are made first, so that after a refusal the
    /// shards come back, and they and the root are as they were.
    pub fn grow(
        self,
        alloc: Global,
        root: &mut Root,
        shard: u32,
    ) -> Result<Shards, (Shards, OutOfMemory)>
        requires ours { IsRootOf self root.old }
        requires none_open { root.old.knows.opened ≡ [] }
        requires there { shard < length self.sizes }
        requires small { slice_index self.sizes shard ≤ most_words }
        ensures sizes { IfOk result (λ grown. grown.sizes ≡ doubled self.sizes shard) }
        ensures ours { IfOk result (λ grown. IsRootOf grown root.new) }
        ensures keys { OnOk result ((key : ℕ) →
            In key root.new.knows.gathered ↔ In key root.old.knows.gathered) }
        ensures none_open { root.new.knows.opened ≡ [] }
        ensures closed { OnOk result (ClosesAll root.new.knows) }
        ensures back { IfErr result (λ refused. refused.0 ≡ self) }
        ensures same { OnErr result (root.new ≡ root.old) }
    {
        match self.doubled_sizes(alloc, shard as usize) {
            Ok(sizes) => self.resized(alloc, root, sizes),
            Err(e) => Err((self, e)),
        }
    }

    /// The same set with at least so many words, at most 2,097,152, in each shard: one call in
    /// place of a `grow` for each shard, and each key is claimed anew once. A shard that has as
    /// many words or more keeps its size. All else is as with `grow`.
    pub fn grow_to(
        self,
        alloc: Global,
        root: &mut Root,
        words: u32,
    ) -> Result<Shards, (Shards, OutOfMemory)>
        requires ours { IsRootOf self root.old }
        requires none_open { root.old.knows.opened ≡ [] }
        requires small { words ≤ most_words }
        ensures sizes { IfOk result (λ grown. grown.sizes ≡ widened words self.sizes) }
        ensures ours { IfOk result (λ grown. IsRootOf grown root.new) }
        ensures keys { OnOk result ((key : ℕ) →
            In key root.new.knows.gathered ↔ In key root.old.knows.gathered) }
        ensures none_open { root.new.knows.opened ≡ [] }
        ensures closed { OnOk result (ClosesAll root.new.knows) }
        ensures back { IfErr result (λ refused. refused.0 ≡ self) }
        ensures same { OnErr result (root.new ≡ root.old) }
    {
        match self.widened_sizes(alloc, words as usize) {
            Ok(sizes) => self.resized(alloc, root, sizes),
            Err(e) => Err((self, e)),
        }
    }

    /// The same set with these sizes, of which none is below the old one.
    fn resized(
        self,
        alloc: Global,
        root: &mut Root,
        sizes: Vec<usize>,
    ) -> Result<Shards, (Shards, OutOfMemory)>
        requires ours { IsRootOf self root.old }
        requires none_open { root.old.knows.opened ≡ [] }
        requires fit { AreSizes sizes.items }
        requires count { length sizes.items ≡ length self.sizes }
        requires larger { (shard : ℕ) →
            slice_index self.sizes shard ≤ slice_index sizes.items shard }
        ensures sizes { IfOk result (λ grown. grown.sizes ≡ sizes.items) }
        ensures ours { IfOk result (λ grown. IsRootOf grown root.new) }
        ensures keys { OnOk result ((key : ℕ) →
            In key root.new.knows.gathered ↔ In key root.old.knows.gathered) }
        ensures none_open { root.new.knows.opened ≡ [] }
        ensures closed { OnOk result (ClosesAll root.new.knows) }
        ensures back { IfErr result (λ refused. refused.0 ≡ self) }
        ensures same { OnErr result (root.new ≡ root.old) }
    {
        match Shards::with_pass(alloc, sizes) {
            Ok((next, next_root, pass)) => {
                let old = self.close(mem::replace(root, next_root));
                next.refill(root, pass, old);
                Ok(next)
            }
            Err(e) => Err((self, e)),
        }
    }

    /// New shards of these sizes, all words 0; and their root, which has opened one pass.
    fn with_pass(alloc: Global, sizes: Vec<usize>) -> Result<(Shards, Root, Pass), OutOfMemory>
        requires { AreSizes sizes.items }
        ensures sizes { IfOk result (λ made. made.0.sizes ≡ sizes.items) }
        ensures ours { IfOk result (λ made. IsRootOf made.0 made.1 × IsPassOf made.0 made.2) }
        ensures root { IfOk result (λ made.
            (made.1.knows.opened ≡ made.2.knows.number ∷ [])
            × (made.1.knows.gathered ≡ []) × (made.1.knows.notes ≡ [])) }
        ensures pass { IfOk result (λ made. made.2.knows.won ≡ []) }
    {
        let (next, mut root) = Shards::made(alloc, sizes)?;
        let pass = next.split(&mut root)?;
        Ok((next, root, pass))
    }

    /// Claims each key of the old words by the pass, which is then gathered.
    fn refill(&self, root: &mut Root, mut pass: Pass, old: OldWords)
        requires root_ours { IsRootOf self.now root.old }
        requires pass_ours { IsPassOf self.now pass }
        requires opened { root.old.knows.opened ≡ pass.knows.number ∷ [] }
        requires gathered { root.old.knows.gathered ≡ [] }
        requires notes { root.old.knows.notes ≡ [] }
        requires won { pass.knows.won ≡ [] }
        ensures ours { IsRootOf self.now root.new }
        ensures none_open { root.new.knows.opened ≡ [] }
        ensures closed { ClosesAll root.new.knows }
        ensures known { (key : ℕ) → In key root.new.knows.gathered →
            (place : ℕ) × Holds old place key }
        ensures told { (place key : ℕ) → Holds old place key →
            IsTold self.now.sizes key root.new.knows.notes }
    {
        for place in 0..old.len() {
            self.claim_word(&mut pass, old.word(place));
        }
        old.free();
        self.gather(root, pass);
    }

    /// Claims the key of a word, if it has one. What the claim answers need not be asked: that
    /// there was room for each key follows in the end from the root's notes.
    fn claim_word(&self, pass: &mut Pass, word: u64)
        requires ours { IsPassOf self.now pass.old }
        ensures ours { IsPassOf self.now pass.new }
        ensures number { pass.new.knows.number ≡ pass.old.knows.number }
        ensures notes { Keeps pass.old.knows.notes pass.new.knows.notes }
        ensures won { (key : ℕ) → In key pass.new.knows.won →
            In key pass.old.knows.won ⊎ ((key ≡ word) × (word ≢ 0)) }
        ensures told { word ≢ 0 → IsTold self.now.sizes word pass.new.knows.notes }
    {
        if word != 0 {
            self.claim(pass, word);
        }
    }
}
