//! An owner takes over the piles that fall to it.

ghost use Rattle.std.specs.Prelude.{◌≡◌, false};
ghost use Rattle.mb_rings.specs.loops.Found.{FindsMore};
ghost use Rattle.mb_walk.specs.loops.Piles.{IsDealt, IsInPile, Merges};

use crate::dealer::Dealer;
use crate::owner::Owner;

/// Adds the tables that a worker dealt to the owner of this number, and lists those that are new.
fn take_pile(dealer: &Dealer, number: usize, owner: &mut Owner)
    ensures { owner.new.is_short ≡ false → (owner.old.is_short ≡ false)
        × FindsMore (IsInPile number dealer.now) owner.old.visited owner.new.visited
        owner.old.next.items owner.new.next.items }
{
    if let Some(pile) = dealer.piles.as_slice().get(number) {
        if owner.visited.take_new(pile, &mut owner.next).is_err() {
            owner.is_short = true;
        }
    }
}

/// Adds the tables that workers dealt to the owner of this number, where they are new: they are its
/// list then.
pub fn merge(dealers: &[Dealer], number: usize, owner: &mut Owner)
    ensures { Merges (IsDealt dealers.now number) owner.old owner.new }
{
    owner.next.clear();
    for dealer in dealers {
        take_pile(dealer, number, owner);
    }
}
