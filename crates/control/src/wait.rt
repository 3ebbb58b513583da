// The call Wait: as Poll where a message waits; else a secondary hands over to guest 0.

ghost use Rattle.std.specs.Prelude.{◌≡◌, true, List, ℕ};
ghost use Rattle.model.specs.State.{state};
ghost use Rattle.model.specs.Sound.{sound};
ghost use Rattle.model.specs.Wait.{wait_effect};

use crate::poll;
use model::Machine;
use parts::{Refusal, codes, reply};

// A waiting message first; then who calls decides.
#[tactic(auto, using(parts::proofs::Answers::caller_below), unfolding(parts::proofs::Answers::answering, model::specs::State::is_empty, model::specs::Wait::wait_effect, model::specs::Wait::wait_verdict))]
pub fn wait(machine: Machine) -> Machine
    requires { sound machine ≡ true }
    ensures { (memory : List ℕ) → state result memory ≡ wait_effect (state machine memory) }
{
    if poll::own_inbox(&machine).is_some() {
        return poll::poll(machine);
    }
    if parts::is_primary(machine.current) {
        return reply::with_error(machine, Refusal::NoData.into());
    }
    reply::handed_over(reply::succeeded(machine), codes::WAIT)
}
