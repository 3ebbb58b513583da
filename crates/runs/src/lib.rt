// A run from call to call: bursts of instructions, and the calls between them, over one machine that is changed in place.

#![tactic(auto)]

ghost use Rattle.std.specs.Prelude.{◌≡◌, ℕ, ◌*◌, true, None, List, length};
ghost use Rattle.model.specs.Constants.{PAGE};
ghost use Rattle.model.specs.State.{state, is_normal};
ghost use Rattle.model.specs.Sound.{sound};
ghost use Rattle.runs.specs.Advance.{rest, rest_of, advance_of, by_call, ended_by, told_of};

use exec::instruction::Stop;
use exec::rights::Maps;
use exec::switch::Switch;
use exec::{burst, rights, switch};
use model::{Machine, MadeCall, Mode, Registers, VmId};
use parts::codes;

// What a run leaves: also what is left of its budget, and the call that ended it, if one did.
#[derive(Clone, Copy)]
pub struct Advanced {
    pub machine: Machine,
    pub left: u32,
    pub call: Option<MadeCall>,
}

// Whether a call stopped the guest.
#[tactic(auto, unfolding(crate::specs::Advance::by_call))]
fn is_called(stop: Stop) -> bool
    ensures { result ≡ by_call stop }
{
    matches!(stop, Stop::Called)
}

// A machine whose guest has stopped without a call: a fault and a halt change the mode.
#[tactic(auto, unfolding(crate::specs::Advance::ended_by))]
fn ends(machine: &mut Machine, stop: Stop)
    ensures { machine.new ≡ ended_by stop machine.old }
{
    match stop {
        Stop::Moved | Stop::Called => {}
        Stop::Faulted => machine.mode = Mode::Fault,
        Stop::Halted => machine.mode = Mode::Halted,
    }
}

// What a run leaves that no call has ended.
fn over(machine: Machine, left: u32) -> Advanced
    ensures { (memory : List ℕ) → rest_of result memory ≡ rest (state machine memory) left None }
{
    Advanced {
        machine,
        left,
        call: None,
    }
}

// Guest 0 is told which secondary has yielded.
#[tactic(auto, unfolding(crate::specs::Advance::told_of))]
fn tell(first: &mut Registers, caller: VmId)
    ensures { first.new ≡ told_of first.old caller }
{
    first.r[0] = codes::YIELD;
    first.r[1] = caller.0 as u32;
}

// Steps while the budget lasts and the mode is normal; up to and including the next call if only that is wanted. A round is a
// burst of the current guest, with its rights, and then the end, or its call: Yield and Run in place, the others by value.
#[tactic(auto, unfolding(model::specs::State::mailbox_at, model::specs::State::own_registers, model::specs::State::plus, model::specs::State::registers_at, model::specs::Step::with_own))]
pub fn advance(machine: Machine, mem: &mut [u32], budget: u32, to_call: bool) -> Advanced
    requires { (sound machine ≡ true) × (is_normal machine.mode ≡ true) × (length mem.old ≡ PAGE * machine.m) }
    ensures { rest_of result mem.new ≡ advance_of to_call budget (state machine mem.old) }
{
    let mut m = machine;
    let mut left = budget;
    let mut kept: [Option<Maps>; 8] = [None; 8];
    while 0 < left {
        let caller = m.current;
        let at = caller.0 as usize;
        let maps = match kept[at] {
            Some(maps) => maps,
            None => rights::maps_of(&m.records, m.m, caller, m.mailboxes[at]),
        };
        kept[at] = Some(maps);
        let mut file = m.registers[at];
        let b = burst::burst(&mut file, maps, left, mem);
        left = b.left;
        let r0 = file.r[0];
        if !is_called(b.stop) {
            m.registers[at] = file;
            ends(&mut m, b.stop);
            return over(m, left);
        }
        let next = switch::switched(&mut file.r, caller, m.n);
        file.pc = file.pc.wrapping_add(1);
        m.registers[at] = file;
        match next {
            Switch::Other => {
                m = calls::call(m, mem);
                kept = [None; 8];
            }
            Switch::Stay => {}
            Switch::Wake => {
                tell(&mut m.registers[0], caller);
                m.current = VmId(0);
            }
            Switch::To(g) => m.current = g,
        }
        if to_call {
            return Advanced {
                machine: m,
                left,
                call: Some(MadeCall { caller, r0 }),
            };
        }
    }
    over(m, 0)
}
