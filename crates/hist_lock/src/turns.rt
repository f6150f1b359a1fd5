// The rule of the table, and what each step on it tells.
use crate::story::Storied;
use crate::view::View;
use atomic_table::{Join, Play, Split, TableRule};
use std::marker::PhantomData;
use std::snapshot::Snapshot;

pub struct Turns;

impl<T: Storied> TableRule<Option<T>, View<T::Event, T::Origin>, Snapshot<T>> for Turns {
    ghost use Rattle.hist_lock.specs.Views.{opener};
    ghost use Rattle.hist_lock.specs.Turns.{IsKept};

    ghost holds = { λ about. IsKept T.events T.session T.origin (T.origin about.value) };

    ghost first = { λ about. opener (T.origin about.value) };
}

pub struct Take;

impl<T: Storied> Play<Option<T>, View<T::Event, T::Origin>> for Take {
    ghost use Rattle.hist_lock.specs.Turns.{taken};

    ghost then = { taken T.events T.session T.origin };
}

pub struct Raise;

impl<T: Storied> Play<Option<T>, View<T::Event, T::Origin>> for Raise {
    ghost use Rattle.hist_lock.specs.Turns.{raised};

    ghost then = { raised T.events T.session T.origin };
}

pub struct Free;

impl<T: Storied> Play<Option<T>, View<T::Event, T::Origin>> for Free {
    ghost use Rattle.hist_lock.specs.Turns.{freed};

    ghost then = { freed T.events T.session T.origin };
}

pub struct Look;

impl<T: Storied> Play<Option<T>, View<T::Event, T::Origin>> for Look {
    ghost use Rattle.hist_lock.specs.Turns.{looked};

    ghost then = { looked T.events T.session T.origin };
}

pub struct Cut;

impl<E, O> Split<View<E, O>> for Cut {
    ghost use Rattle.hist_lock.specs.Views.{parted, newcomer};

    ghost left = { parted };

    ghost right = { newcomer };
}

pub struct Glue<T> {
    of: PhantomData<T>,
}

impl<T: Storied> Join<View<T::Event, T::Origin>> for Glue<T> {
    ghost use Rattle.hist_lock.specs.Views.{joined, gone};

    ghost both = { joined };

    ghost spent = { gone T.nowhere };
}
