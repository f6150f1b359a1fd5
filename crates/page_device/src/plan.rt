// Which calls of a device in memory are to fail.
ghost use Rattle.std.specs.Prelude.{◌≡◌, ◌+◌, ◌↔◌, IsTrue, Any};
ghost use Rattle.page_device.specs.Plan.{count_of, with_count, counted, Fails, passed, new_plan};

use std::marker::Model;

/// The four kinds of call that may fail.
#[derive(Clone, Copy, Debug, PartialEq, Eq)]
pub enum CallKind {
    Read,
    Write,
    Sync,
    Len,
}

/// The call of this kind that fails, counted from 1.
#[derive(Clone, Copy, Debug, PartialEq, Eq)]
pub struct Fail {
    pub kind: CallKind,
    pub number: u64,
}

/// The calls that fail, which contracts see as a list.
#[derive(Drop)]
pub struct FailList {
    fails: Vec<Fail>,
}

impl Model for FailList {
    ghost use Rattle.std.specs.Prelude.{List};
    ghost use Rattle.page_device.specs.declared.plan.Fail.{Fail};

    ghost Value = { List Fail };

    ghost view = { λ l. l.fails.items };
}

impl FailList {
    /// The list, without taking memory.
    pub fn of(fails: Vec<Fail>) -> FailList
        ensures { result ≡ fails.items }
    {
        FailList { fails }
    }

    /// Gives the list back, without taking memory.
    pub fn into_vec(self) -> Vec<Fail>
        ensures { result.items ≡ self }
    {
        let FailList { fails } = self;
        fails
    }

    // Whether the call after so many of this kind is in the list.
    fn names(&self, kind: CallKind, made: u64) -> bool
        ensures { IsTrue result ↔ Any (λ fail. (fail.kind ≡ kind) × (fail.number ≡ made + 1)) self.now }
    {
        self.fails.iter().any(|fail| fail.kind == kind && fail.number.checked_sub(1) == Some(made))
    }
}

/// How many calls of each kind were made, up to the last number.
#[derive(Clone, Copy, Debug, PartialEq, Eq)]
pub struct Counts {
    pub reads: u64,
    pub writes: u64,
    pub syncs: u64,
    pub lens: u64,
}

impl Counts {
    fn of(&self, kind: CallKind) -> u64
        ensures { result ≡ count_of self.now kind }
    {
        match kind {
            CallKind::Read => self.reads,
            CallKind::Write => self.writes,
            CallKind::Sync => self.syncs,
            CallKind::Len => self.lens,
        }
    }

    fn set(&mut self, kind: CallKind, count: u64)
        ensures { self.new ≡ with_count self.old kind count }
    {
        match kind {
            CallKind::Read => self.reads = count,
            CallKind::Write => self.writes = count,
            CallKind::Sync => self.syncs = count,
            CallKind::Len => self.lens = count,
        }
    }
}

/// The calls that are to fail, those that are left before all fail, and those that were made.
#[derive(Drop)]
pub struct Plan {
    pub(crate) fails: FailList,
    pub(crate) left: Option<u64>,
    pub(crate) counts: Counts,
}

impl Plan {
    /// A plan before the first call.
    pub(crate) fn of(fails: FailList, stop: Option<u64>) -> Plan
        ensures { result ≡ new_plan fails stop }
    {
        let counts = Counts {
            reads: 0,
            writes: 0,
            syncs: 0,
            lens: 0,
        };
        Plan {
            fails,
            left: stop,
            counts,
        }
    }

    // Whether the next call of this kind is to fail.
    fn fails(&self, kind: CallKind) -> bool
        ensures { IsTrue result ↔ Fails kind self.now }
    {
        self.left == Some(0) || self.fails.names(kind, self.counts.of(kind))
    }

    /// Counts a call, and says whether it is to fail.
    pub(crate) fn pass(&mut self, kind: CallKind) -> bool
        ensures fails { IsTrue result ↔ Fails kind self.old }
        ensures passed { self.new ≡ passed kind self.old }
    {
        let fails = self.fails(kind);
        self.left = self.left.map(|left| left.saturating_sub(1));
        self.counts
            .set(kind, self.counts.of(kind).saturating_add(1));
        fails
    }
}
