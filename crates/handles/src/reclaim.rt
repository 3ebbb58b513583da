// The call Reclaim: the sender, while nothing is retrieved.

ghost use Rattle.std.specs.Prelude.{◌≡◌, false, true, List, ℕ, refl};
ghost use Rattle.model.specs.State.{state};
ghost use Rattle.model.specs.Sound.{sound};
ghost use Rattle.model.specs.Row.{sends};
ghost use Rattle.model.specs.Deeds.{settled, reclaimed};
ghost use Rattle.model.specs.Reclaim.{reclaim_effect};

use crate::deeds;
use crate::handle_call::{self, HandleCall};
use model::{Deal, Handle, Machine, VmId};

// How Reclaim differs from the other calls on a handle.
struct Reclaiming;

impl HandleCall for Reclaiming {
    ghost may = { sends };

    ghost mark = { false };

    ghost deed = { reclaimed };

    ghost keeps_caller = { λ m h d. unfold reclaimed in unfold settled in refl };

    fn may(d: Deal, g: VmId) -> bool {
        parts::sends(d, g)
    }

    #[tactic(auto, unfolding(model::specs::Tests::agree))]
    fn marked(d: Deal) -> bool {
        !d.retrieved
    }

    fn deed(machine: Machine, h: Handle, d: Deal) -> Machine {
        deeds::reclaimed(machine, h, d)
    }
}

// The pages are the sender's own again.
#[tactic(auto, unfolding(model::specs::Reclaim::reclaim_effect))]
pub fn reclaim(machine: Machine) -> Machine
    requires { sound machine ≡ true }
    ensures { (memory : List ℕ) → state result memory ≡ reclaim_effect (state machine memory) }
{
    handle_call::on_handle::<Reclaiming>(machine)
}
