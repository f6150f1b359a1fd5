// One session: its pass, and what it says that it did.
ghost use Rattle.std.specs.Prelude.{◌≡◌, ◌++◌, [], ◌∷◌, ◌+◌, ◌<◌, true, false, MatchBool, if◌then◌else◌, IfOk, IfSome};
ghost use Rattle.hist_lock.specs.Story.{Begins};
ghost use Rattle.hist_lock.specs.Crew.{hand, Ready};
ghost use Rattle.store_tests.specs.declared.hist_lock_calls.worker.Worker.{Worker};

use super::journal::{Entry, Journal};
use hist_lock::{HistLock, Pass};
use std::alloc::Global;
use std::sync::Wait;

/// What a worker hands over in the end: the entries that it added, and those that it found at last.
#[derive(Drop)]
pub struct Page {
    pub said: Vec<Entry>,
    pub saw: Vec<Entry>,
}

#[derive(Drop)]
pub struct Worker {
    pub number: u32,
    pub pass: Pass<Journal, Entry, u64>,
    pub page: Page,
}

// One section, which adds one entry at most.
fn add<R: Wait>(
    rt: &R,
    lock: &HistLock<Journal>,
    pass: &mut Pass<Journal, Entry, u64>,
    entry: Entry,
) -> bool
    requires lock { pass.old.lock ≡ lock.now }
    requires outside { pass.old.inside ≡ false }
    requires own { pass.old.id ≡ entry.session }
    ensures pass { (pass.new.lock ≡ pass.old.lock) × (pass.new.id ≡ pass.old.id) × (pass.new.inside ≡ false) }
    ensures mine { pass.new.mine ≡ (if result then pass.old.mine ++ entry ∷ [] else pass.old.mine) }
    ensures seen { Begins pass.new.seen pass.old.seen }
{
    let mut held = lock.enter(rt, pass);
    let done = held.value().add(entry);
    lock.leave(rt, held, pass);
    done
}

// One section, which only looks.
fn look<R: Wait>(
    rt: &R,
    alloc: Global,
    lock: &HistLock<Journal>,
    pass: &mut Pass<Journal, Entry, u64>,
) -> Option<Vec<Entry>>
    requires lock { pass.old.lock ≡ lock.now }
    requires outside { pass.old.inside ≡ false }
    ensures pass { (pass.new.lock ≡ pass.old.lock) × (pass.new.id ≡ pass.old.id) × (pass.new.inside ≡ false) }
    ensures mine { pass.new.mine ≡ pass.old.mine }
    ensures seen { Begins pass.new.seen pass.old.seen }
    ensures copy { IfSome result (λ v. v.items ≡ pass.new.seen) }
{
    let mut held = lock.enter(rt, pass);
    let copy = held.value().entries().to_vec(alloc).ok();
    lock.leave(rt, held, pass);
    copy
}

impl Worker {
    /// Makes so many sections, or until memory runs out, and looks at the entries at last. `place` is the worker's place in the list.
    pub fn work<R: Wait>(
        &mut self,
        rt: &R,
        alloc: Global,
        lock: &HistLock<Journal>,
        place: usize,
        sections: u32,
    )
        requires { Ready (λ (w : Worker). hand w.number w.pass w.page.said.items w.page.saw.items) lock.now place self.old }
        ensures { Ready (λ (w : Worker). hand w.number w.pass w.page.said.items w.page.saw.items) lock.now place self.new }
    {
        let _ = place;
        self.add_all(rt, lock, sections, place);
        if let Some(copy) = look(rt, alloc, lock, &mut self.pass) {
            self.page.saw = copy;
        }
    }

    fn add_all<R: Wait>(&mut self, rt: &R, lock: &HistLock<Journal>, sections: u32, place: usize)
        requires { Ready (λ (w : Worker). hand w.number w.pass w.page.said.items w.page.saw.items) lock.now place self.old }
        ensures { Ready (λ (w : Worker). hand w.number w.pass w.page.said.items w.page.saw.items) lock.now place self.new }
    {
        let _ = place;
        for what in 0..sections {
            if self.page.said.reserve(1).is_err() {
                break;
            }
            let entry = Entry {
                session: self.number,
                what,
            };
            if !add(rt, lock, &mut self.pass, entry) {
                break;
            }
            self.page.said.push_reserved(entry);
        }
    }
}
