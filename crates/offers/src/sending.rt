// The calls Donate, Lend and Share: one function, over the kind.

ghost use Rattle.std.specs.Prelude.{◌≡◌, true, ◌*◌, length, IfOk};
ghost use Rattle.model.specs.Constants.{PAGE};
ghost use Rattle.model.specs.State.{state};
ghost use Rattle.model.specs.Sound.{sound};
ghost use Rattle.model.specs.Reply.{succeeded};
ghost use Rattle.model.specs.Sending.{lowest_free, granted, sent, with_handle, sending_verdict, sending_effect};
ghost use Rattle.parts.specs.Refusal.{verdict_of};
ghost use Rattle.offers.specs.Sending.{sent_by, Sendable};

use crate::descriptor;
use crate::descriptor::Proposal;
use handles::deeds;
use model::{Deal, Handle, Kind, Machine, Transaction, VmId};
use parts::{Refusal, inboxes, pages, registers, reply};

// The lowest free handle; 16, behind the last one, if none is free.
fn lowest_free(transactions: &[Transaction; 16]) -> Handle
    ensures { result ≡ lowest_free transactions.now }
{
    let free = transactions.iter().position(|t| t.deal.is_none());
    Handle(free.unwrap_or(16) as u8)
}

// Whether this guest gets a handle: any guest does, while one is free.
#[tactic(auto, unfolding(model::specs::Sending::granted))]
fn granted(machine: &Machine, g: VmId) -> bool
    ensures { result ≡ granted machine.now g }
{
    lowest_free(&machine.transactions).0 < 16
}

// The lowest free handle gets the transaction, its pages their row, and the caller the handle.
#[tactic(auto, unfolding(crate::specs::Sending::sent_by, model::specs::Deeds::settled, model::specs::Reply::succeeded, model::specs::Sending::with_handle))]
fn sent(kind: Kind, machine: Machine, proposal: Proposal) -> Machine
    requires { Sendable machine proposal }
    ensures { result ≡ sent_by kind machine proposal }
{
    let Proposal {
        receiver,
        count,
        pages,
    } = proposal;
    let caller = machine.current;
    let d = Deal {
        sender: caller,
        receiver,
        kind,
        retrieved: false,
        count,
    };
    let new = Transaction {
        deal: Some(d),
        pages,
    };
    let h = lowest_free(&machine.transactions);
    let mut done = reply::succeeded(deeds::settled(machine, h, new, new, parts::row(d)));
    registers::write(&mut done.registers, caller, 2, h.0 as u32);
    done
}

// What is sent, if the tests pass, on the caller's R1 and the words from its TX page on: what is INVALID first, then DENIED, then
// NO_MEMORY.
#[tactic(auto, using(parts::proofs::Answers::caller_below))]
fn proposed(kind: Kind, machine: &Machine, mem: &[u32]) -> Result<Proposal, Refusal>
    requires { (sound machine.now ≡ true) × (length mem.now ≡ PAGE * machine.now.m) }
    ensures tests { verdict_of result ≡ sending_verdict kind (state machine.now mem.now) }
    ensures sendable { IfOk result (Sendable machine.now) }
    ensures sent { IfOk result (λ proposal. sent_by kind machine.now proposal
        ≡ with_handle (succeeded (sent kind (state machine.now mem.now))) (lowest_free machine.now.transactions)) }
{
    let caller = machine.current;
    let words = reply::argument(machine, 1);
    if !(3..=10).contains(&words) {
        return Err(Refusal::Invalid);
    }
    let base = 1024 * inboxes::mailbox_at(&machine.mailboxes, caller).tx.0 as usize;
    let tx = &mem[base..];
    let proposal = descriptor::proposal_in(kind, machine, words, tx).ok_or(Refusal::Invalid)?;
    let named = &proposal.pages[..proposal.count as usize];
    if !pages::all_have(&machine.records, named, parts::owned_row(caller)) {
        return Err(Refusal::Denied);
    }
    if !granted(machine, caller) {
        return Err(Refusal::NoMemory);
    }
    Ok(proposal)
}

// It is sent, or the caller is told the error.
#[tactic(auto, using(parts::proofs::Answers::caller_below), unfolding(model::specs::Sending::sending_effect, parts::proofs::Answers::answering))]
pub fn sending(kind: Kind, machine: Machine, mem: &[u32]) -> Machine
    requires { (sound machine ≡ true) × (length mem.now ≡ PAGE * machine.m) }
    ensures { state result mem.now ≡ sending_effect kind (state machine mem.now) }
{
    match proposed(kind, &machine, mem) {
        Ok(proposal) => sent(kind, machine, proposal),
        Err(refusal) => reply::with_error(machine, refusal.into()),
    }
}
