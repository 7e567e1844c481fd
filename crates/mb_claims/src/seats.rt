//! The root and the passes: who may step on the words, and what each knows.

use crate::views::View;
use atomic_table::Seat;
use std::marker::Model;

/// The root of some shards, one for each: it opens passes and gathers them. It takes no bytes.
///
/// It is seen as the table of words that it belongs to and its view: the numbers of the open
/// passes, the gathered keys, the notes and the sizes of the shards.
#[derive(Drop)]
pub struct Root {
    pub(crate) seat: Seat<u8, View>,
}

impl Model for Root {
    ghost use Rattle.mb_claims.specs.Claims.{RootSeat};
    ghost use Rattle.mb_claims.specs.View.{root_of};
    ghost use Rattle.mb_claims.specs.loops.Seats.{IsRootSeat};

    ghost Value = { RootSeat };

    ghost view = { λ r. record { table = r.seat.table_id; knows = root_of r.seat.me.0 } };

    ghost invariant = { λ r. IsRootSeat r.seat.me };
}

/// A pass: the view by which one thread claims keys. It takes no bytes, and may be sent to another
/// thread.
///
/// It is seen as the table of words that it belongs to and its view: its number, the keys that it
/// won, its notes and the sizes of the shards.
#[derive(Drop)]
pub struct Pass {
    pub(crate) seat: Seat<u8, View>,
}

impl Model for Pass {
    ghost use Rattle.mb_claims.specs.Claims.{PassSeat};
    ghost use Rattle.mb_claims.specs.View.{pass_of};
    ghost use Rattle.mb_claims.specs.loops.Seats.{IsPassSeat};

    ghost Value = { PassSeat };

    ghost view = { λ p. record { table = p.seat.table_id; knows = pass_of p.seat.me.0 } };

    ghost invariant = { λ p. IsPassSeat p.seat.me };
}
