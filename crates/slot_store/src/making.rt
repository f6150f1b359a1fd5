//! A checkpoint, and the settling of a head that is in doubt. Neither takes memory.
ghost use Rattle.std.specs.Prelude.{◌≡◌, ◌≤◌, ◌+◌, ◌∷◌, ◌++◌, [], ℕ, List, Some, None, IfSome, is_some, IsSome, OnOk, OnErr, IfOk, IsErr, IsErrOf, ◌↔◌, if◌then◌else◌};
ghost use Rattle.page_device.specs.Image.{Image, bytes_of};
ghost use Rattle.page_device.specs.Device.{FileIs, HasCause, Rose};
ghost use Rattle.page_device.specs.Gate as gate;
ghost use Rattle.page_device.specs.Run.{Each, LeavesOnly};
ghost use Rattle.page_device.specs.declared.device.Which.TheVariants.{Slots};
ghost use Rattle.slot_store.specs.Logs.{other_log, other_file};
ghost use Rattle.slot_store.specs.Head.{Head, head_bytes};
ghost use Rattle.slot_store.specs.Opens.{Opened, Opens, OpensFresh};
ghost use Rattle.slot_store.specs.Planned.{written_slots, IfMade, IfSpent, placed_in, IsMadeFor, head_of, opened_of};
ghost use Rattle.slot_store.specs.Steps.{From, SlotsStand};
ghost use Rattle.slot_store.specs.Checkpoint.{IsReady, IsPlanned, IsInDoubt, IsSettledAs, settled};

use crate::end::CheckEnd;
use crate::planning::{CheckPlan, MadePlan};
use crate::prepare::prepare;
use crate::state::{DoubtedHead, SlotState};
use crate::table::PageTable;
use page_device::{Device, Failed, settle_gate, write_and_sync};
use std::mem;
use xq_ast::SpentKind;

/// Makes the checkpoint of a plan: writes the images that are in no slot to free slots, then the head of the other log, and
/// opens its gate. The plan is lent so that nothing is dropped here; it keeps its pages with their slots.
pub fn checkpoint<D: Device>(
    device: &mut D,
    state: &mut SlotState,
    plan: &mut CheckPlan,
) -> Result<(), CheckEnd>
    requires no_doubt { state.old.doubt ≡ None }
    requires made { IfMade plan.old (IsMadeFor state.old) }
    requires ready { IfSome (D.contents device.old) (λ c. IfMade plan.old (λ p. IsReady state.old p c (D.may_leave device.old))) }
    ensures told { is_some (D.contents device.new) ≡ is_some (D.contents device.old) }

    // Spent comes exactly where the plan says it, with no device call, and nothing changes.
    ensures spent { (kind : SpentKind) (number : ℕ) → IsErrOf result (CheckEnd.Spent kind number) ↔ (plan.old ≡ CheckPlan.Spent kind number) }
    ensures spent_device { IfSpent plan.old (device.new ≡ device.old) }
    ensures spent_state { IfSpent plan.old (state.new ≡ state.old) }

    // After Ok each image opens to the same by the new head, no record stands behind it, and the old log keeps its first byte.
    ensures done { IfMade plan.old (λ p. OnOk result (IfSome (D.contents device.old) (λ c. Each (D.may_leave device.new) (OpensFresh (other_log state.old.log) (head_of p) (opened_of p c))))) }
    ensures done_state { IfMade plan.old (λ p. OnOk result (state.new ≡ record { log = other_log state.old.log; generation = state.old.generation + 1; table = p.table; doubt = None })) }

    // After Failed each image opens as at entry, and another checkpoint may be made.
    ensures failed { IfMade plan.old (λ p. IsErrOf result CheckEnd.Failed → IfSome (D.contents device.old) (λ c. Each (D.may_leave device.new) (IsPlanned state.old p c))) }
    ensures failed_state { IsErrOf result CheckEnd.Failed → state.new ≡ state.old }

    // After Doubt each image has the whole new head, and only the byte of its gate differs from image to image.
    ensures doubt { IfMade plan.old (λ p. IsErrOf result CheckEnd.Doubt → IfSome (D.contents device.old) (λ c. (rest : List ℕ) × Each (D.may_leave device.new) (IsInDoubt state.old (head_of p) rest (opened_of p c)))) }
    ensures in_doubt { IsErrOf result CheckEnd.Doubt → IsSome state.new.doubt }
    ensures doubt_state { IfMade plan.old (λ p. IsErrOf result CheckEnd.Doubt → state.new ≡ record state.old { doubt = Some (record { generation = state.old.generation + 1; table = p.table }) }) }

    // At each moment each image opens to the plan's commit number, catalogue and pages.
    ensures any_moment { IfMade plan.old (λ p. IfSome (D.contents device.old) (λ c. LeavesOnly D.moment D.left_since device.old device.new (Opens (opened_of p c)))) }

    // No slot is written over but those of the plan's images that were in no slot.
    ensures stand { IfMade plan.old (λ p. IfSome (D.contents device.old) (λ _. Each (D.may_leave device.new) (From (SlotsStand (written_slots p.placed.items)) (D.may_leave device.old)))) }
    ensures placed { placed_in plan.new ≡ placed_in plan.old }
    ensures faults { D.failures device.old ≤ D.failures device.new }
    ensures cause { IfMade plan.old (λ _. IsErr result → Rose (D.failures device.old) (D.failures device.new)) }
{
    match plan {
        CheckPlan::Made(made) => write_plan(device, state, made),
        CheckPlan::Spent { kind, number } => Err(CheckEnd::Spent {
            kind: *kind,
            number: *number,
        }),
    }
}

// Makes the checkpoint of a plan that is made.
fn write_plan<D: Device>(
    device: &mut D,
    state: &mut SlotState,
    plan: &mut MadePlan,
) -> Result<(), CheckEnd>
    requires no_doubt { state.old.doubt ≡ None }
    requires made { IsMadeFor state.old plan.old }
    requires ready { IfSome (D.contents device.old) (λ c. IsReady state.old plan.old c (D.may_leave device.old)) }
    ensures told { is_some (D.contents device.new) ≡ is_some (D.contents device.old) }
    ensures done { OnOk result (IfSome (D.contents device.old) (λ c. Each (D.may_leave device.new) (OpensFresh (other_log state.old.log) (head_of plan.old) (opened_of plan.old c)))) }
    ensures done_state { OnOk result (state.new ≡ record { log = other_log state.old.log; generation = state.old.generation + 1; table = plan.old.table; doubt = None }) }
    ensures failed { IsErrOf result CheckEnd.Failed → IfSome (D.contents device.old) (λ c. Each (D.may_leave device.new) (IsPlanned state.old plan.old c)) }
    ensures failed_state { IsErrOf result CheckEnd.Failed → state.new ≡ state.old }
    ensures doubt { IsErrOf result CheckEnd.Doubt → IfSome (D.contents device.old) (λ c. (rest : List ℕ) × Each (D.may_leave device.new) (IsInDoubt state.old (head_of plan.old) rest (opened_of plan.old c))) }
    ensures doubt_state { IsErrOf result CheckEnd.Doubt → state.new ≡ record state.old { doubt = Some (record { generation = state.old.generation + 1; table = plan.old.table }) } }
    ensures any_moment { IfSome (D.contents device.old) (λ c. LeavesOnly D.moment D.left_since device.old device.new (Opens (opened_of plan.old c))) }
    ensures stand { IfSome (D.contents device.old) (λ _. Each (D.may_leave device.new) (From (SlotsStand (written_slots plan.old.placed.items)) (D.may_leave device.old))) }
    ensures placed { plan.new.placed.items ≡ plan.old.placed.items }
    ensures spent_never { (kind : SpentKind) (number : ℕ) → IsErrOf result (CheckEnd.Spent kind number) → ⊥ }
    ensures faults { D.failures device.old ≤ D.failures device.new }
    ensures cause { IsErr result → Rose (D.failures device.old) (D.failures device.new) }
{
    let Ok(()) = prepare(device, state, plan) else {
        return Err(CheckEnd::Failed);
    };
    let log = state.log.other();
    let Ok(()) = write_and_sync(device, log.file(), 0, &[1]) else {
        let table = mem::replace(&mut plan.table, PageTable::new(plan.alloc));
        state.doubt = Some(DoubtedHead {
            generation: plan.generation,
            table,
        });
        return Err(CheckEnd::Doubt);
    };
    mem::swap(&mut state.table, &mut plan.table);
    state.log = log;
    state.generation = plan.generation;
    Ok(())
}

/// Settles a head that is in doubt: syncs its log, and reads its gate. The head counts exactly where the gate is 1.
pub fn settle_head<D: Device>(device: &mut D, state: &mut SlotState) -> Result<bool, Failed>
    requires doubt { IsSome state.old.doubt }
    ensures told { is_some (D.contents device.new) ≡ is_some (D.contents device.old) }
    ensures answer { IfOk result (λ yes. IfSome (D.contents device.old) (λ c. gate.IsSettled (other_file state.old.log) 0 c (D.may_leave device.new) yes)) }
    ensures contents { OnOk result (D.contents device.new ≡ D.contents device.old) }
    ensures state { IfOk result (λ yes. state.new ≡ settled state.old yes) }
    ensures err { OnErr result (state.new ≡ state.old) }

    // Where each image had the head but for its gate, each opens to the same by the head of the state's log now, and did at each moment.
    ensures opens { IfOk result (λ yes. IfSome (D.contents device.old) (λ _. (head : Head) (rest : List ℕ) (o : Opened) → Each (D.may_leave device.old) (IsInDoubt state.old head rest o) → Each (D.may_leave device.new) (IsSettledAs state.old head o yes))) }
    ensures same { (head : Head) (rest : List ℕ) (o : Opened) → Each (D.may_leave device.old) (IsInDoubt state.old head rest o) → LeavesOnly D.moment D.left_since device.old device.new (Opens o) }

    // It leaves no image that was not there, at no moment.
    ensures images { Each (D.may_leave device.new) (D.may_leave device.old) }
    ensures any_moment { LeavesOnly D.moment D.left_since device.old device.new (D.may_leave device.old) }
    ensures cause { HasCause (D.failures device.old) (D.failures device.new) result }
{
    let yes = settle_gate(device, state.log.other().file(), 0)?;
    settle_state(state, yes);
    Ok(yes)
}

// The state where a head in doubt counts, or not.
fn settle_state(state: &mut SlotState, counts: bool)
    ensures { state.new ≡ settled state.old counts }
{
    let Some(head) = state.doubt.take() else {
        return;
    };
    if counts {
        state.log = state.log.other();
        state.generation = head.generation;
        state.table = head.table;
    }
}
