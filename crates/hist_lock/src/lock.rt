// The lock.
ghost use Rattle.std.specs.Prelude.{◌≡◌, ◌+◌, ◌^◌, ◌<◌, ◌++◌, true, false, [], ◌∷◌, length, Some, None, IfOk, IfErr};
ghost use Rattle.hist_lock.specs.Story.{Begins, events_of, AllOf};
ghost use Rattle.hist_lock.specs.Views.{entered, added, left};
ghost use Rattle.hist_lock.specs.Turns.{Gained};
ghost use Rattle.hist_lock.specs.Passes.{opening_pass, parting_pass, joining_pass, most_passes, AllJoined, ClosedAs};
ghost use Rattle.hist_lock.specs.Holding.{value_of};

use crate::held::Held;
use crate::pass::Pass;
use crate::story::Storied;
use crate::turns::{Cut, Free, Glue, Look, Raise, Take, Turns};
use crate::view::View;
use atomic_table::{Refused, Seat, Table};
use std::alloc::{AllocFailed, Global};
use std::marker::Model;
use std::snapshot::Snapshot;
use std::sync::Wait;
use thiserror::Error;

// The words of the table: how many events the list has, and whose turn it is.
const COUNT: usize = 0;

const TURN: usize = 1;

// The turn is free, held, or held while somebody may wait for it.
const FREE: u64 = 0;

const HELD: u64 = 1;

const WANTED: u64 = 2;

/// There was no memory for the lock.
#[derive(Clone, Copy, Debug, PartialEq, Eq, Error)]
#[error("out of memory")]
pub struct NoMemory;

/// A lock round a value. Contracts see it as the name that it shares with its passes.
pub struct HistLock<T: Storied> {
    table: Table<Option<T>, View<T::Event, T::Origin>, Snapshot<T>, Turns, Global>,
}

impl<T: Storied> Model for HistLock<T> {
    ghost use Rattle.std.specs.Prelude.{◌≡◌};
    ghost use Rattle.atomic_table.specs.Seated.{TableId};

    ghost Value = { TableId };

    ghost view = { λ l. l.table.shared.table_id };

    ghost invariant = { λ l. (l.table.shared.table_id.words ≡ 2) × (l.table.shared.table_id.slots ≡ 1) };
}

impl<T: Storied> HistLock<T> {
    /// A lock round a value that has no event yet, and the opener's pass.
    pub fn new(
        alloc: Global,
        value: T,
    ) -> Result<(HistLock<T>, Pass<T, T::Event, T::Origin>), (T, NoMemory)>
        requires { T.events value ≡ [] }
        ensures pass { IfOk result (λ r. r.1 ≡ opening_pass r.0 (T.origin value)) }
        ensures err { IfErr result (λ r. r.0 ≡ value) }
    {
        let about = Snapshot::of(&value);
        let mut slots = Vec::new(alloc);
        if let Err(failed) = slots.push(Some(value)) {
            slots.destroy_empty();
            let AllocFailed { value } = failed;
            let Some(value) = value else { unreachable!() };
            return Err((value, NoMemory));
        }
        match Table::new(alloc, &[0, 0], slots, &about) {
            Ok((table, seat)) => Ok((
                HistLock { table },
                Pass {
                    seat,
                    made: 0,
                    found: 0,
                },
            )),
            Err(Refused { slots }) => Err((only(slots), NoMemory)),
        }
    }

    // Waits for the turn, and has the value then.
    fn turn<R: Wait>(&self, rt: &R, seat: &mut Seat<Option<T>, View<T::Event, T::Origin>>)
        requires lock { seat.old.table_id ≡ self.now }
        requires outside { (seat.old.me.0.live ≡ true) × (seat.old.me.1 ≡ []) }
        ensures lock { (seat.new.table_id ≡ seat.old.table_id) × (seat.new.id ≡ seat.old.id) }
        ensures gained { (x : T) × (seat.new.me.0 ≡ entered seat.old.me.0 (T.events x)) × (seat.new.me.1 ≡ (0, Some x) ∷ []) × Gained T.events T.session T.origin seat.old.me.0 x }
    {
        if self
            .table
            .shared
            .compare_exchange::<Take>(seat, TURN, FREE, HELD)
            == FREE
        {
            return;
        }
        for _ in rt.forever() {
            if self.table.shared.swap::<Take>(seat, TURN, WANTED) == FREE {
                return;
            }
            self.table.shared.park(rt, TURN, WANTED as u32);
        }
        unreachable!()
    }

    /// Waits for the turn, and takes the value out. The pass has then seen the whole list.
    /// Between two tries it sleeps until somebody leaves.
    pub fn enter<R: Wait>(&self, rt: &R, pass: &mut Pass<T, T::Event, T::Origin>) -> Held<T>
        requires lock { pass.old.lock ≡ self.now }
        requires outside { pass.old.inside ≡ false }
        ensures pass { pass.new ≡ record pass.old { inside = true; seen = T.events (value_of result) } }
        ensures begins { Begins (T.events (value_of result)) pass.old.seen }
        ensures own { events_of T.session pass.old.id (T.events (value_of result)) ≡ pass.old.mine }
        ensures origin { T.origin (value_of result) ≡ pass.old.origin }
        ensures small { length (T.events (value_of result)) < 2 ^ 64 }
    {
        self.turn(rt, &mut pass.seat);
        let taken = self.table.shared.exchange(&mut pass.seat, 0, None);
        let Some(value) = taken else { unreachable!() };
        pass.found = value.count();
        Held { value }
    }

    // Puts the value back with so many new events, gives the turn back, and wakes one who waits where one may.
    fn give(&self, seat: &mut Seat<Option<T>, View<T::Event, T::Origin>>, value: T, more: u64)
        requires lock { seat.old.table_id ≡ self.now }
        requires holding { (seat.old.me.0.live ≡ true) × (seat.old.me.0.inside ≡ true) × (seat.old.me.1 ≡ (0, None) ∷ []) }
        requires events { (new : _) × (T.events value ≡ seat.old.me.0.seen ++ new) × AllOf T.session seat.old.me.0.id new × (more ≡ length new) }
        requires origin { T.origin value ≡ seat.old.me.0.origin }
        requires small { length (T.events value) < 2 ^ 64 }
        ensures lock { seat.new.table_id ≡ seat.old.table_id }
        ensures me { (new : _) → T.events value ≡ seat.old.me.0.seen ++ new → seat.new.me ≡ (left (added seat.old.me.0 (T.events value) (seat.old.me.0.mine ++ new)), []) }
    {
        let empty = self.table.shared.exchange(seat, 0, Some(value));
        let None = empty else { unreachable!() };
        self.table.shared.fetch_add::<Raise>(seat, COUNT, more);
        self.wake_if_wanted(self.table.shared.swap::<Free>(seat, TURN, FREE));
    }

    // Wakes one who waits for the turn, where one may.
    fn wake_if_wanted(&self, turn: u64) {
        if turn == WANTED {
            self.table.shared.wake_one(TURN);
        }
    }

    /// Puts the value back, with new events of this pass's number alone, and wakes one who waits, where one may. It waits
    /// for nobody, so any `rt` will do.
    pub fn leave<R>(&self, _rt: &R, held: Held<T>, pass: &mut Pass<T, T::Event, T::Origin>)
        requires lock { pass.old.lock ≡ self.now }
        requires inside { pass.old.inside ≡ true }
        requires events { (new : _) × (T.events (value_of held) ≡ pass.old.seen ++ new) × AllOf T.session pass.old.id new }
        requires origin { T.origin (value_of held) ≡ pass.old.origin }
        requires small { length (T.events (value_of held)) < 2 ^ 64 }
        ensures pass { pass.new ≡ record pass.old { inside = false; seen = T.events (value_of held); mine = pass.new.mine } }
        ensures mine { (new : _) → T.events (value_of held) ≡ pass.old.seen ++ new → pass.new.mine ≡ pass.old.mine ++ new }
    {
        let Held { value } = held;
        let more = value.count() - pass.found;
        self.give(&mut pass.seat, value, more);
    }

    /// One more pass, with the next number. It has seen what the opener has, and no event of its number is among that.
    pub fn split(&self, opener: &mut Pass<T, T::Event, T::Origin>) -> Pass<T, T::Event, T::Origin>
        requires lock { opener.old.lock ≡ self.now }
        requires opener { opener.old.id ≡ 0 }
        requires outside { opener.old.inside ≡ false }
        requires room { opener.old.made < most_passes }
        ensures opener { opener.new ≡ record opener.old { made = opener.old.made + 1 } }
        ensures new { result ≡ parting_pass opener.old }
        ensures unused { events_of T.session result.id result.seen ≡ [] }
    {
        self.table.shared.load::<Look>(&mut opener.seat, COUNT);
        let seat = self.table.shared.split_seat::<Cut>(&mut opener.seat);
        opener.made += 1;
        Pass {
            seat,
            made: 0,
            found: 0,
        }
    }

    /// Takes a pass back. The opener keeps what it knew.
    pub fn join(
        &self,
        opener: &mut Pass<T, T::Event, T::Origin>,
        other: Pass<T, T::Event, T::Origin>,
    )
        requires lock { opener.old.lock ≡ self.now }
        requires same_lock { other.lock ≡ self.now }
        requires opener { opener.old.id ≡ 0 }
        requires outside { opener.old.inside ≡ false }
        requires other { other.inside ≡ false }
        ensures { opener.new ≡ joining_pass opener.old other }
    {
        self.table
            .shared
            .join_seat::<Glue<T>>(&mut opener.seat, other.into_seat());
    }

    /// Closes the lock, once each pass that was made was joined, and gives the value.
    pub fn close(self, opener: Pass<T, T::Event, T::Origin>) -> T
        requires lock { opener.lock ≡ self }
        requires opener { opener.id ≡ 0 }
        requires outside { opener.inside ≡ false }
        requires joined { AllJoined opener }
        ensures origin { T.origin result ≡ opener.origin }
        ensures list { ClosedAs T.session (T.events result) opener }
    {
        let HistLock { table } = self;
        let mut closed = table.close_with(opener.into_seat());
        let slot = closed.take(0);
        closed.free();
        let Some(value) = slot else { unreachable!() };
        value
    }
}

fn only<T>(mut slots: Vec<Option<T>>) -> T
    requires { (x : T) × (slots.items ≡ Some x ∷ []) }
    ensures { slots.items ≡ Some result ∷ [] }
{
    let last = slots.pop();
    let Some(Some(value)) = last else {
        unreachable!()
    };
    slots.destroy_empty();
    value
}
