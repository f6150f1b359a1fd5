// The value while a pass is inside.

/// The value of the lock, in the hands of the pass that is inside.
pub struct Held<T> {
    pub(crate) value: T,
}

impl<T> Held<T> {
    ghost use Rattle.std.specs.Prelude.{◌≡◌};
    ghost use Rattle.std.specs.Borrow.{sem};
    ghost use Rattle.hist_lock.specs.Holding.{value_of};
    ghost use Rattle.hist_lock.specs.Lending.{LendsValue};

    /// The value. What is written through it is what `leave` hands over.
    pub fn value(&mut self) -> &mut T
        ensures* lends { sem 𝓛 (LendsValue T.row self.entry result) }
        ensures value { result.now ≡ value_of self.old }
    {
        &mut self.value
    }
}
