// The call Retrieve: the receiver, before it has retrieved.

ghost use Rattle.std.specs.Prelude.{◌≡◌, false, true, List, ℕ, refl};
ghost use Rattle.model.specs.State.{state};
ghost use Rattle.model.specs.Sound.{sound};
ghost use Rattle.model.specs.Row.{receives};
ghost use Rattle.model.specs.Deeds.{settled, retrieved};
ghost use Rattle.model.specs.Retrieve.{retrieve_effect};

use crate::deeds;
use crate::handle_call::{self, HandleCall};
use model::{Deal, Handle, Machine, VmId};

// How Retrieve differs from the other calls on a handle.
struct Retrieving;

impl HandleCall for Retrieving {
    ghost may = { receives };

    ghost mark = { false };

    ghost deed = { retrieved };

    ghost keeps_caller = { λ m h d. unfold retrieved in unfold settled in refl };

    fn may(d: Deal, g: VmId) -> bool {
        parts::receives(d, g)
    }

    #[tactic(auto, unfolding(model::specs::Tests::agree))]
    fn marked(d: Deal) -> bool {
        !d.retrieved
    }

    fn deed(machine: Machine, h: Handle, d: Deal) -> Machine {
        deeds::retrieved(machine, h, d)
    }
}

// The pages go to the receiver.
#[tactic(auto, unfolding(model::specs::Retrieve::retrieve_effect))]
pub fn retrieve(machine: Machine) -> Machine
    requires { sound machine ≡ true }
    ensures { (memory : List ℕ) → state result memory ≡ retrieve_effect (state machine memory) }
{
    handle_call::on_handle::<Retrieving>(machine)
}
