// The waiting messages of the n guests: their lengths, and who sent them.

ghost use Rattle.std.specs.Prelude.{◌≡◌, not, ltb, leb};
ghost use Rattle.isa.specs.Tests.{◌and◌};
ghost use Rattle.model.specs.Constants.{PAGE};
ghost use Rattle.model.specs.State.{same_vm};
ghost use Rattle.model.specs.Sound.{if_full, lengths_in_range, senders_below, no_own_sender};

use model::{Message, VmId};

// A waiting message has 1 to 1,024 words.
#[tactic(auto, unfolding(model::specs::Sound::if_full, model::specs::State::same_vm, isa::proofs::Tests::joined))]
fn length_in_range(inbox: Option<Message>) -> bool
    ensures { result ≡ if_full inbox (λ length sender. leb 1 length and leb length PAGE) }
{
    inbox.is_none_or(|message| (1 <= message.length) & (message.length <= 1024))
}

// So for every guest.
#[tactic(auto, unfolding(model::specs::Sound::each_message, model::specs::State::inbox_at, model::specs::Sound::lengths_in_range))]
pub fn lengths_in_range(n: u8, inboxes: &[Option<Message>; 8]) -> bool
    ensures { result ≡ lengths_in_range n inboxes.now }
{
    inboxes
        .iter()
        .take(n as usize)
        .all(|inbox| length_in_range(*inbox))
}

// The sender of a waiting message is among the n guests.
#[tactic(auto, unfolding(model::specs::Sound::if_full, model::specs::State::same_vm, isa::proofs::Tests::joined))]
fn sender_below(n: u8, inbox: Option<Message>) -> bool
    ensures { result ≡ if_full inbox (λ length sender. ltb sender.0 n) }
{
    inbox.is_none_or(|message| message.sender.0 < n)
}

// So for every guest.
#[tactic(auto, unfolding(model::specs::Sound::each_message, model::specs::State::inbox_at, model::specs::Sound::senders_below))]
pub fn senders_below(n: u8, inboxes: &[Option<Message>; 8]) -> bool
    ensures { result ≡ senders_below n inboxes.now }
{
    inboxes
        .iter()
        .take(n as usize)
        .all(|inbox| sender_below(n, *inbox))
}

// Guest g did not write to itself.
#[tactic(auto, unfolding(model::specs::Sound::if_full, model::specs::State::same_vm, isa::proofs::Tests::joined))]
fn not_own_sender(g: VmId, inbox: Option<Message>) -> bool
    ensures { result ≡ if_full inbox (λ length sender. not (same_vm sender g)) }
{
    inbox.is_none_or(|message| message.sender != g)
}

// So for every guest.
#[tactic(auto, unfolding(model::specs::Sound::each_message, model::specs::State::inbox_at, model::specs::Sound::no_own_sender))]
pub fn no_own_sender(n: u8, inboxes: &[Option<Message>; 8]) -> bool
    ensures { result ≡ no_own_sender n inboxes.now }
{
    (0..n)
        .zip(inboxes.iter())
        .all(|(g, inbox)| not_own_sender(VmId(g), *inbox))
}
