// The call Send: words of the caller's TX page go to another guest's RX page.

ghost use Rattle.std.specs.Prelude.{◌≡◌, true, ◌+◌, ◌*◌, ◌≤◌, ◌<◌, length, drop, IfOk};
ghost use Rattle.std.proofs.Math.Seq.{paste};
ghost use Rattle.model.specs.Constants.{PAGE, GUESTS};
ghost use Rattle.model.specs.State.{state};
ghost use Rattle.model.specs.Memory.{base_of};
ghost use Rattle.model.specs.Sound.{sound};
ghost use Rattle.model.specs.Send.{send_to, send_length, send_verdict, delivered_to, notified, send_effect};
ghost use Rattle.parts.specs.Refusal.{verdict_of};

use crate::copy;
use model::{Machine, Message, PageId, VmId};
use parts::{Refusal, codes, inboxes, numbers, registers, reply};

// To whom, and how many words, if the tests pass, in their order: another guest, a page at most, and an empty inbox.
#[tactic(auto, using(parts::proofs::Answers::caller_below, parts::proofs::Named::no_vm, parts::proofs::Answers::guests_few, parts::proofs::Named::vm_found, parts::proofs::Named::named_below), unfolding(parts::proofs::Answers::answering, isa::proofs::Tests::joined, model::specs::Reply::is_other, model::specs::Send::send_length, model::specs::Send::send_to, model::specs::Send::send_verdict))]
fn addressed(machine: &Machine) -> Result<(VmId, u32), Refusal>
    requires { sound machine.now ≡ true }
    ensures verdict { verdict_of result ≡ send_verdict machine.now }
    ensures named { IfOk result (λ to. (to.0 ≡ send_to machine.now) × (to.1 ≡ send_length machine.now)) }
    ensures within { IfOk result (λ to. (to.0.0 < machine.now.n) × (to.1 ≤ PAGE)) }
{
    let receiver = numbers::vm_of(reply::argument(machine, 1), machine.n).ok_or(Refusal::Invalid)?;
    if receiver == machine.current {
        return Err(Refusal::Invalid);
    }
    let words = reply::argument(machine, 2);
    if !(1..=1024).contains(&words) {
        return Err(Refusal::Invalid);
    }
    let busy = machine.inboxes[receiver.0 as usize].is_some();
    if busy {
        return Err(Refusal::Busy);
    }
    Ok((receiver, words))
}

// The receiver's inbox says from whom, and how long.
#[tactic(auto, unfolding(model::specs::Send::delivered_to, model::specs::State::with_inbox))]
fn delivered(mut machine: Machine, receiver: VmId, words: u32) -> Machine
    requires { receiver.0 < GUESTS }
    ensures { result ≡ delivered_to machine receiver words }
{
    let message = Message {
        length: words,
        sender: machine.current,
    };
    machine.inboxes[receiver.0 as usize] = Some(message);
    machine
}

// Guest 0 is current. If a secondary called, it learns of the message, from whom and for whom.
#[tactic(auto, unfolding(model::specs::Reply::handed_over, model::specs::Reply::woken, model::specs::Send::notified))]
fn notified(machine: Machine, receiver: VmId) -> Machine
    ensures { result ≡ notified machine receiver }
{
    let mut told = reply::handed_over(machine, codes::SEND);
    if parts::is_primary(machine.current) {
        return told;
    }
    registers::write(&mut told.registers, VmId(0), 2, receiver.0 as u32);
    told
}

// The first words of the page tx over those of the page rx, which is lent to the copier.
#[tactic(auto, unfolding(model::specs::Memory::base_of))]
fn copied(mem: &mut [u32], tx: PageId, rx: PageId, words: usize)
    requires { (words ≤ PAGE) × (base_of tx + PAGE ≤ length mem.old) × (base_of rx + PAGE ≤ length mem.old) }
    ensures { mem.new ≡ paste mem.old (base_of rx) (drop (base_of tx) mem.old) words }
{
    let from = 1024 * (tx.0 as usize);
    let last = from + words;
    let sent = copy::taken(&mem[from..last]);
    let base = 1024 * (rx.0 as usize);
    let end = base + 1024;
    copy::put(&mut mem[base..end], &sent[..words]);
}

// The words go over, and guest 0 hears of it from a secondary; or the error.
#[tactic(auto, using(parts::proofs::Answers::caller_below, parts::proofs::Answers::guests_few), unfolding(parts::proofs::Answers::answering, model::specs::Memory::tx_words, model::specs::Send::copied, model::specs::Send::delivered, model::specs::Send::send_base, model::specs::Send::send_effect, model::specs::State::own_mailbox))]
pub fn send(machine: Machine, mem: &mut [u32]) -> Machine
    requires { (sound machine ≡ true) × (length mem.old ≡ PAGE * machine.m) }
    ensures { state result mem.new ≡ send_effect (state machine mem.old) }
{
    let (receiver, words) = match addressed(&machine) {
        Ok(to) => to,
        Err(refusal) => return reply::with_error(machine, refusal.into()),
    };
    let tx = inboxes::mailbox_at(&machine.mailboxes, machine.current).tx;
    let rx = inboxes::mailbox_at(&machine.mailboxes, receiver).rx;
    copied(mem, tx, rx, words as usize);
    let done = reply::succeeded(delivered(machine, receiver, words));
    notified(done, receiver)
}
