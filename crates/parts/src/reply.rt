// How a call is answered: an argument read, an error, success, and guest 0 made current.

ghost use Rattle.std.specs.Prelude.{◌≡◌, ◌<◌};
ghost use Rattle.model.specs.Constants.{GUESTS};
ghost use Rattle.model.specs.State.{argument};
ghost use Rattle.model.specs.Reply.{with_error, succeeded, handed_over};

use crate::{codes, registers};
use model::{Machine, VmId};

// A register of the caller.
#[tactic(auto, unfolding(model::specs::State::argument, model::specs::State::own_registers))]
pub fn argument(machine: &Machine, i: usize) -> u32
    requires { (machine.now.current.0 < GUESTS) × (i < 8) }
    ensures { result ≡ argument machine.now i }
{
    registers::register(&machine.registers, machine.current, i)
}

// An error: R0 and R2 of the caller, and nothing else.
#[tactic(auto, unfolding(model::specs::Reply::with_error))]
pub fn with_error(mut machine: Machine, code: u32) -> Machine
    requires { machine.current.0 < GUESTS }
    ensures { result ≡ with_error machine code }
{
    let caller = machine.current;
    registers::write(&mut machine.registers, caller, 0, codes::ERROR);
    registers::write(&mut machine.registers, caller, 2, code);
    machine
}

// Success in the caller's R0.
#[tactic(auto, unfolding(model::specs::Reply::succeeded))]
pub fn succeeded(mut machine: Machine) -> Machine
    requires { machine.current.0 < GUESTS }
    ensures { result ≡ succeeded machine }
{
    let caller = machine.current;
    registers::write(&mut machine.registers, caller, 0, codes::SUCCESS);
    machine
}

// Guest 0 is current. If a secondary called, guest 0's R0 says which call it was, and its R1 who called.
#[tactic(auto, using(crate::proofs::Answers::woken_primary), unfolding(model::specs::Reply::handed_over, model::specs::Reply::told, model::specs::Reply::woken))]
pub fn handed_over(mut machine: Machine, why: u32) -> Machine
    ensures { result ≡ handed_over machine why }
{
    let caller = machine.current;
    if crate::is_primary(caller) {
        return machine;
    }
    registers::write(&mut machine.registers, VmId(0), 0, why);
    registers::write(&mut machine.registers, VmId(0), 1, caller.0 as u32);
    machine.current = VmId(0);
    machine
}
