// The call Run: guest 0 makes another guest current.

ghost use Rattle.std.specs.Prelude.{◌≡◌, true, List, ℕ};
ghost use Rattle.model.specs.State.{state};
ghost use Rattle.model.specs.Sound.{sound};
ghost use Rattle.model.specs.Run.{run_effect};

use model::Machine;
use parts::{numbers, reply};

// The guest in R1 is current, and no register changes; or the error.
#[tactic(auto, using(parts::proofs::Answers::caller_below), unfolding(parts::proofs::Answers::answering, model::specs::Run::run_effect, model::specs::Run::run_verdict))]
pub fn run(machine: Machine) -> Machine
    requires { sound machine ≡ true }
    ensures { (memory : List ℕ) → state result memory ≡ run_effect (state machine memory) }
{
    match numbers::next_guest(machine.current, reply::argument(&machine, 1), machine.n) {
        Ok(current) => Machine { current, ..machine },
        Err(refusal) => reply::with_error(machine, refusal.into()),
    }
}
