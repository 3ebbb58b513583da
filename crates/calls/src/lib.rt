// The call that the current guest makes: R0 names it, and it is one of `control`, `handles` or `offers`.

#![tactic(auto)]

ghost use Rattle.std.specs.Prelude.{◌≡◌, true, ◌*◌, length};
ghost use Rattle.model.specs.Constants.{PAGE};
ghost use Rattle.model.specs.State.{state};
ghost use Rattle.model.specs.Sound.{sound};
ghost use Rattle.model.specs.Call.{call_effect};
ghost use Rattle.calls.specs.Choice.{named, effect_of};

use model::{Kind, Machine};
use parts::{Refusal, codes, reply};

// The calls.
#[derive(Clone, Copy, PartialEq, Eq)]
pub enum CallName {
    Run,
    Yield,
    Poll,
    Wait,
    Send,
    Transfer(Kind),
    Retrieve,
    Relinquish,
    Reclaim,
}

// The call of a number; any other number is refused as not supported.
impl TryFrom<u32> for CallName {
    type Error = Refusal;

    ghost try_from_gives = { λ number result. result ≡ named number };

    #[tactic(auto, using(crate::proofs::Chosen::no_call), unfolding(crate::specs::Choice::named, model::specs::Call::chosen))]
    fn try_from(number: u32) -> Result<Self, Refusal> {
        match number {
            codes::RUN => Ok(CallName::Run),
            codes::YIELD => Ok(CallName::Yield),
            codes::POLL => Ok(CallName::Poll),
            codes::WAIT => Ok(CallName::Wait),
            codes::SEND => Ok(CallName::Send),
            codes::DONATE => Ok(CallName::Transfer(Kind::Donate)),
            codes::LEND => Ok(CallName::Transfer(Kind::Lend)),
            codes::SHARE => Ok(CallName::Transfer(Kind::Share)),
            codes::RETRIEVE => Ok(CallName::Retrieve),
            codes::RELINQUISH => Ok(CallName::Relinquish),
            codes::RECLAIM => Ok(CallName::Reclaim),
            _ => Err(Refusal::NotSupported),
        }
    }
}

// What a call by its name does.
#[tactic(auto, unfolding(crate::specs::Choice::effect_of))]
fn made(called: CallName, machine: Machine, mem: &mut [u32]) -> Machine
    requires { (sound machine ≡ true) × (length mem.old ≡ PAGE * machine.m) }
    ensures { state result mem.new ≡ effect_of called (state machine mem.old) }
{
    match called {
        CallName::Run => control::run::run(machine),
        CallName::Yield => control::yielding::yield_call(machine),
        CallName::Poll => control::poll::poll(machine),
        CallName::Wait => control::wait::wait(machine),
        CallName::Send => control::send::send(machine, mem),
        CallName::Transfer(kind) => offers::sending::sending(kind, machine, &mem[..]),
        CallName::Retrieve => handles::retrieve::retrieve(machine),
        CallName::Relinquish => handles::relinquish::relinquish(machine),
        CallName::Reclaim => handles::reclaim::reclaim(machine),
    }
}

// What the current guest's call does, on a sound machine.
#[tactic(auto, using(parts::proofs::Answers::caller_below))]
pub fn call(machine: Machine, mem: &mut [u32]) -> Machine
    requires { (sound machine ≡ true) × (length mem.old ≡ PAGE * machine.m) }
    ensures { state result mem.new ≡ call_effect (state machine mem.old) }
{
    match CallName::try_from(reply::argument(&machine, 0)) {
        Ok(called) => made(called, machine, mem),
        Err(refusal) => reply::with_error(machine, refusal.into()),
    }
}
