// A call on a handle: what the three calls have in common, and the trait that says in what they differ.

ghost use Rattle.std.specs.Prelude.{◌≡◌, true, List, ℕ, Bool};
ghost use Rattle.model.specs.declared.VmId.{VmId};
ghost use Rattle.model.specs.declared.Handle.{Handle};
ghost use Rattle.model.specs.declared.Deal.{Deal};
ghost use Rattle.model.specs.declared.Machine.{Machine};
ghost use Rattle.model.specs.State.{state};
ghost use Rattle.model.specs.Tests.{agree};
ghost use Rattle.model.specs.Sound.{sound};
ghost use Rattle.model.specs.HandleCall.{handle_effect};
ghost use Rattle.handles.specs.Deeds.{Dealt};

use crate::lookup;
use model::{Deal, Handle, Machine, VmId};
use parts::{Refusal, reply};

// What tells one call on a handle from another: the party that may make it, whether the retrieved mark must be set or clear,
// and what it does to the pages and the handle.
pub trait HandleCall {
    ghost may: { Deal → VmId → Bool };

    ghost mark: { Bool };

    ghost deed: { Machine → Handle → Deal → Machine };

    fn may(d: Deal, g: VmId) -> bool
        ensures { result ≡ may d g };

    fn marked(d: Deal) -> bool
        ensures { result ≡ agree d.retrieved mark };

    fn deed(machine: Machine, h: Handle, d: Deal) -> Machine
        requires { Dealt machine h d }
        ensures { result ≡ deed machine h d };

    // The caller stays the current guest, so that it can be answered.
    ghost keeps_caller: { (m : Machine) (h : Handle) (d : Deal) → (deed m h d).current ≡ m.current };
}

// The look-up, the tests in their order, and then the deed.
#[tactic(auto, using(parts::proofs::Answers::caller_below))]
pub fn on_handle<C: HandleCall>(machine: Machine) -> Machine
    requires { sound machine ≡ true }
    ensures { (memory : List ℕ) → state result memory ≡ handle_effect C.may C.mark C.deed (state machine memory) }
{
    let Some((h, d)) = lookup::own_found(&machine) else {
        return reply::with_error(machine, Refusal::Invalid.into());
    };
    match lookup::tested(&machine, h, d, C::may(d, machine.current), C::marked(d)) {
        Err(refusal) => reply::with_error(machine, refusal.into()),
        Ok(()) => reply::succeeded(C::deed(machine, h, d)),
    }
}
