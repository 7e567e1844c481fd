//! The views of the set: what the owner of a seat knows. No value of these types is made; they are
//! for clauses and proofs.

use std::collections::LinkedList;

/// An observation: the word at this place holds this key. It stays true, since a word that holds a
/// key never changes.
pub struct Note {
    pub place: u64,
    pub key: u64,
}

/// What the root knows: the numbers of the open passes, the keys that gathered passes won, the
/// notes that they made, and the number of words of each shard.
pub struct RootView {
    pub opened: LinkedList<u64>,
    pub gathered: LinkedList<u64>,
    pub notes: LinkedList<Note>,
    pub sizes: LinkedList<u64>,
}

/// What a pass knows: its number, the keys that it won, its notes, and the number of words of each
/// shard.
pub struct PassView {
    pub number: u64,
    pub won: LinkedList<u64>,
    pub notes: LinkedList<Note>,
    pub sizes: LinkedList<u64>,
}

/// The view of a seat: the root's, a pass's, or that of a gathered pass, which is spent and knows
/// nothing.
pub enum View {
    OfRoot(RootView),
    OfPass(PassView),
    Spent,
}
