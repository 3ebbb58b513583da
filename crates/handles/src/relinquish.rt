// The call Relinquish: the receiver, once it has retrieved.

ghost use Rattle.std.specs.Prelude.{◌≡◌, true, List, ℕ, refl};
ghost use Rattle.model.specs.State.{state};
ghost use Rattle.model.specs.Sound.{sound};
ghost use Rattle.model.specs.Row.{receives};
ghost use Rattle.model.specs.Deeds.{settled, relinquished};
ghost use Rattle.model.specs.Relinquish.{relinquish_effect};

use crate::deeds;
use crate::handle_call::{self, HandleCall};
use model::{Deal, Handle, Machine, VmId};

// How Relinquish differs from the other calls on a handle.
struct Relinquishing;

impl HandleCall for Relinquishing {
    ghost may = { receives };

    ghost mark = { true };

    ghost deed = { relinquished };

    ghost keeps_caller = { λ m h d. unfold relinquished in unfold settled in refl };

    fn may(d: Deal, g: VmId) -> bool {
        parts::receives(d, g)
    }

    #[tactic(auto, unfolding(model::specs::Tests::agree))]
    fn marked(d: Deal) -> bool {
        d.retrieved
    }

    fn deed(machine: Machine, h: Handle, d: Deal) -> Machine {
        deeds::relinquished(machine, h, d)
    }
}

// The mark goes.
#[tactic(auto, unfolding(model::specs::Relinquish::relinquish_effect))]
pub fn relinquish(machine: Machine) -> Machine
    requires { sound machine ≡ true }
    ensures { (memory : List ℕ) → state result memory ≡ relinquish_effect (state machine memory) }
{
    handle_call::on_handle::<Relinquishing>(machine)
}
