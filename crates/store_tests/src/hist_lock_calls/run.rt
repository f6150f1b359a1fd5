// All workers at once.
ghost use Rattle.std.specs.Prelude.{All, ◌≡◌, ◌≤◌, ◌+◌, ◌<◌, [], map, length, vec_len, vec_capacity, IfOk, false};
ghost use Rattle.hist_lock.specs.Crew.{hand, AllReady, AtLock, Ready, kept_by, Tells};
ghost use Rattle.hist_lock.specs.Passes.{most_passes};
ghost use Rattle.store_tests.specs.declared.hist_lock_calls.journal.Entry.{Entry};
ghost use Rattle.store_tests.specs.declared.hist_lock_calls.worker.Page.{Page};
ghost use Rattle.store_tests.specs.declared.hist_lock_calls.worker.Worker.{Worker};

use super::journal::{Entry, Journal};
use super::worker::{Page, Worker};
use hist_lock::{HistLock, NoMemory, Pass};
use std::alloc::Global;
use std::sync::Wait;
use std::thread;
use std::thread::Threads;

// So many workers, each with a pass of its own.
fn hire(
    alloc: Global,
    lock: &HistLock<Journal>,
    opener: &mut Pass<Journal, Entry, u64>,
    count: usize,
    workers: &mut Vec<Worker>,
)
    requires lock { opener.old.lock ≡ lock.now }
    requires opener { (opener.old.id ≡ 0) × (opener.old.inside ≡ false) × (opener.old.made ≡ 0) }
    requires room { (vec_len workers.old ≡ 0) × (count ≤ vec_capacity workers.old) × (count < most_passes) }
    ensures opener { opener.new ≡ record opener.old { made = count } }
    ensures workers { AllReady (λ (w : Worker). hand w.number w.pass w.page.said.items w.page.saw.items) lock.now workers.new.items }
    ensures count { length workers.new.items ≡ count }
{
    for _place in 0..count {
        let pass = lock.split(opener);
        workers.push_reserved(Worker {
            number: opener.made(),
            pass,
            page: Page {
                said: Vec::new(alloc),
                saw: Vec::new(alloc),
            },
        });
    }
}

// Takes the passes back, and what each worker hands over.
fn gather(
    lock: &HistLock<Journal>,
    opener: &mut Pass<Journal, Entry, u64>,
    workers: Vec<Worker>,
    pages: &mut Vec<Page>,
)
    requires lock { opener.old.lock ≡ lock.now }
    requires opener { (opener.old.id ≡ 0) × (opener.old.inside ≡ false) × (opener.old.kept ≡ []) }
    requires workers { All (AtLock (λ (w : Worker). hand w.number w.pass w.page.said.items w.page.saw.items) lock.now) workers.items }
    requires room { (vec_len pages.old ≡ 0) × (length workers.items ≤ vec_capacity pages.old) }
    ensures opener { opener.new ≡ record opener.old { seen = opener.new.seen; kept = opener.new.kept } }
    ensures kept { opener.new.kept ≡ map (λ (w : Worker). kept_by w.pass) workers.items }
    ensures pages { pages.new.items ≡ map (λ (w : Worker). w.page) workers.items }
{
    let mut rest = workers.into_iter();
    while let Some(worker) = rest.next() {
        let Worker {
            number: _,
            pass,
            page,
        } = worker;
        lock.join(opener, pass);
        pages.push_reserved(page);
    }
    rest.destroy_empty();
}

// Each worker makes its sections, in a thread of its own.
fn work_all<R: Threads + Wait + Sync>(
    rt: &R,
    alloc: Global,
    lock: &HistLock<Journal>,
    workers: &mut Vec<Worker>,
    sections: u32,
)
    requires { AllReady (λ (w : Worker). hand w.number w.pass w.page.said.items w.page.saw.items) lock.now workers.old.items }
    ensures ready { AllReady (λ (w : Worker). hand w.number w.pass w.page.said.items w.page.saw.items) lock.now workers.new.items }
    ensures count { length workers.new.items ≡ length workers.old.items }
{
    let threads = workers.len().max(1);
    thread::for_each_mut(
        rt,
        workers.as_mut_slice(),
        threads,
        &|place, worker: &mut Worker|
            requires { Ready (λ (w : Worker). hand w.number w.pass w.page.said.items w.page.saw.items) lock.now place worker.now }
            ensures { Ready (λ (w : Worker). hand w.number w.pass w.page.said.items w.page.saw.items) lock.entry.now place worker.exit.now }
        { worker.work(rt, alloc, lock, place, sections) },
    );
}

/// So many workers at once, each with so many sections. The list has of each worker what it says, in its order, begins
/// with what it saw, and has nothing else.
pub fn run_all<R: Threads + Wait + Sync>(
    rt: &R,
    alloc: Global,
    journal: Journal,
    count: usize,
    sections: u32,
) -> Result<(Journal, Vec<Page>), (Journal, NoMemory)>
    requires room { count < most_passes }
    requires empty { journal.entries.items ≡ [] }
    ensures count { IfOk result (λ r. length r.1.items ≡ count) }
    ensures tells { IfOk result (λ r. Tells (λ (p : Page). p.said.items) (λ (p : Page). p.saw.items) (λ (e : Entry). e.session) r.0.entries.items r.1.items) }
    ensures base { IfOk result (λ r. r.0.base ≡ journal.base) }
{
    let Ok(mut workers) = Vec::with_capacity(alloc, count) else {
        return Err((journal, NoMemory));
    };
    let Ok(mut pages) = Vec::with_capacity(alloc, count) else {
        return Err((journal, NoMemory));
    };
    let (lock, mut opener) = HistLock::new(alloc, journal)?;
    hire(alloc, &lock, &mut opener, count, &mut workers);
    work_all(rt, alloc, &lock, &mut workers, sections);
    gather(&lock, &mut opener, workers, &mut pages);
    Ok((lock.close(opener), pages))
}
