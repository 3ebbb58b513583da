// The call Poll: the caller takes its waiting message.

ghost use Rattle.std.specs.Prelude.{◌≡◌, true, List, ℕ, ◌<◌, Some};
ghost use Rattle.model.specs.Constants.{GUESTS};
ghost use Rattle.model.specs.State.{state, own_inbox};
ghost use Rattle.model.specs.Sound.{sound};
ghost use Rattle.model.specs.Poll.{polled, poll_effect};

use model::{Machine, Message};
use parts::{Refusal, codes, registers, reply};

// What waits for the caller.
#[tactic(auto, unfolding(model::specs::State::inbox_at, model::specs::State::own_inbox))]
pub fn own_inbox(machine: &Machine) -> Option<Message>
    requires { machine.now.current.0 < GUESTS }
    ensures { result ≡ own_inbox machine.now }
{
    machine.inboxes[machine.current.0 as usize]
}

// The caller learns of the message, and its inbox is empty again.
#[tactic(auto, unfolding(model::specs::Poll::noted, model::specs::Poll::polled, model::specs::State::length_of, model::specs::State::sender_of, model::specs::State::with_inbox))]
fn polled(mut machine: Machine, message: Message) -> Machine
    requires { (machine.current.0 < GUESTS) × (own_inbox machine ≡ Some message) }
    ensures { result ≡ polled machine }
{
    let caller = machine.current;
    registers::write(&mut machine.registers, caller, 0, codes::SEND);
    registers::write(&mut machine.registers, caller, 1, message.sender.0 as u32);
    registers::write(&mut machine.registers, caller, 2, message.length);
    machine.inboxes[caller.0 as usize] = None;
    machine
}

// NO_DATA where nothing waits, else the message is taken.
#[tactic(auto, using(parts::proofs::Answers::caller_below), unfolding(parts::proofs::Answers::answering, model::specs::Poll::poll_effect, model::specs::Poll::poll_verdict, model::specs::State::is_empty))]
pub fn poll(machine: Machine) -> Machine
    requires { sound machine ≡ true }
    ensures { (memory : List ℕ) → state result memory ≡ poll_effect (state machine memory) }
{
    let Some(message) = own_inbox(&machine) else {
        return reply::with_error(machine, Refusal::NoData.into());
    };
    polled(machine, message)
}
