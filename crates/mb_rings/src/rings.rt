//! The rings that a walk gives.

ghost use Rattle.std.specs.Prelude.{◌^◌, ◌≡◌, ◌<◌, None, Some, length, slice_get, sum_by};
ghost use Rattle.mb_rings.specs.Ring.{tables_of};
ghost use Rattle.mb_rings.specs.loops.RingList.{AreCounted, listed};

use mb_claims::Root;
use mb_tables::Table;
use std::marker::Model;

/// Rings of tables, seen as the list of their lists of tables, and the root of the claims by which
/// they were found, if they have one.
#[derive(Drop)]
pub struct Rings {
    rings: Vec<Vec<Table>>,
    total: u32,
    claims: Option<Root>,
}

impl Model for Rings {
    ghost use Rattle.mb_rings.specs.Walked.{Walked};
    ghost use Rattle.mb_rings.specs.loops.RingList.{AreCounted, listed};

    ghost Value = { Walked };

    ghost view = { λ r. record { rings = listed r.rings.items; claims = r.claims } };

    ghost invariant = { λ r. AreCounted r.total (listed r.rings.items) };
}

impl Rings {
    /// The rings of these lists, which hold so many tables together, without claims. It takes no
    /// memory.
    pub fn from_lists(rings: Vec<Vec<Table>>, total: u32) -> Rings
        requires { AreCounted total (listed rings.items) }
        ensures rings { result.rings ≡ listed rings.items }
        ensures claims { result.claims ≡ None }
    {
        Rings {
            rings,
            total,
            claims: None,
        }
    }

    /// The same rings with the root of the claims by which they were found.
    pub fn with_claims(self, root: Root) -> Rings
        ensures rings { result.rings ≡ self.rings }
        ensures claims { result.claims ≡ Some root }
    {
        let Rings {
            rings,
            total,
            claims: _,
        } = self;
        Rings {
            rings,
            total,
            claims: Some(root),
        }
    }

    /// The root of the claims by which a walk found the rings, if they have one. It takes no
    /// memory.
    pub fn into_claims(self) -> Option<Root>
        ensures { result ≡ self.claims }
    {
        let Rings {
            rings: _,
            total: _,
            claims,
        } = self;
        claims
    }

    /// The number of rings.
    pub fn len(&self) -> u32
        ensures { result ≡ length self.now.rings }
    {
        self.rings.len() as u32
    }

    /// The tables of ring k, ascending. Rings count from 0.
    pub fn ring(&self, k: u32) -> &[Table]
        requires { k < length self.now.rings }
        ensures { slice_get self.now.rings k ≡ Some result.now }
    {
        self.rings[k as usize].as_slice()
    }

    /// All rings, in order.
    pub fn all(&self) -> &[Vec<Table>]
        ensures rings { listed result.now ≡ self.now.rings }
        ensures sizes { sum_by length self.now.rings < 2 ^ 32 }
    {
        let _total = self.total;
        self.rings.as_slice()
    }

    /// The number of tables in all rings.
    pub fn total(&self) -> u32
        ensures tables { result ≡ length (tables_of self.now.rings) }
        ensures sizes { result ≡ sum_by length self.now.rings }
    {
        self.total
    }
}
