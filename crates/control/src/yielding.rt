// The call Yield: a secondary hands over to guest 0.

ghost use Rattle.std.specs.Prelude.{◌≡◌, true, List, ℕ};
ghost use Rattle.model.specs.State.{state};
ghost use Rattle.model.specs.Sound.{sound};
ghost use Rattle.model.specs.Yield.{yield_effect};

use model::Machine;
use parts::{codes, reply};

// Success for the caller, and guest 0 is current. (`yield` is a word of the language.)
#[tactic(auto, using(parts::proofs::Answers::caller_below), unfolding(model::specs::Yield::yield_effect))]
pub fn yield_call(machine: Machine) -> Machine
    requires { sound machine ≡ true }
    ensures { (memory : List ℕ) → state result memory ≡ yield_effect (state machine memory) }
{
    reply::handed_over(reply::succeeded(machine), codes::YIELD)
}
