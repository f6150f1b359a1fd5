// A session's pass.
ghost use Rattle.std.specs.Prelude.{◌≡◌, true};
ghost use Rattle.hist_lock.specs.Passes.{known_of, hands};

use crate::view::View;
use atomic_table::Seat;
use std::marker::Model;

/// The right of one session to enter the lock, and what it knows of the list. It names no bound, so that any struct may hold one.
pub struct Pass<T, E, O> {
    pub(crate) seat: Seat<Option<T>, View<E, O>>,
    pub(crate) made: u32,
    // while it is inside, how many events it found
    pub(crate) found: u64,
}

impl<T, E, O> Model for Pass<T, E, O> {
    ghost use Rattle.hist_lock.specs.Passes.{Known, known_of, IsPass};

    ghost Value = { Known E O };

    ghost view = { λ p. known_of p.seat.table_id p.seat.me.0 };

    ghost invariant = { λ p. IsPass p.seat.me p.made p.found };
}

impl<T, E, O> Pass<T, E, O> {
    pub(crate) fn into_seat(self) -> Seat<Option<T>, View<E, O>>
        ensures known { known_of result.table_id result.me.0 ≡ self }
        ensures live { result.me.0.live ≡ true }
        ensures holding { result.me.1 ≡ hands result.me.0.inside }
    {
        let Pass {
            seat,
            made: _,
            found: _,
        } = self;
        seat
    }

    /// How many passes were split from this one.
    pub fn made(&self) -> u32
        ensures { result ≡ self.now.made }
    {
        self.made
    }
}

impl<T, E, O> Drop for Pass<T, E, O> {
    fn drop(self) {
        let Pass {
            seat: _,
            made: _,
            found: _,
        } = self;
    }
}
