// The look-up of a handle word, and the tests behind it.

ghost use Rattle.std.specs.Prelude.{◌≡◌, ◌<◌};
ghost use Rattle.model.specs.Constants.{GUESTS, DENIED, ABORTED};
ghost use Rattle.model.specs.Reply.{passes, need};
ghost use Rattle.model.specs.HandleCall.{lookup, own_found, in_place};
ghost use Rattle.parts.specs.Refusal.{verdict_of};
ghost use Rattle.handles.specs.Deeds.{Dealt};

use crate::deeds;
use model::{Deal, Handle, Machine, Transaction};
use parts::{Refusal, pages, reply};

// What a handle word finds; a word above 15 finds nothing.
#[tactic(auto, unfolding(model::specs::HandleCall::lookup, model::specs::HandleCall::found_in, model::specs::State::transaction_at))]
fn lookup(transactions: &[Transaction; 16], w: u32) -> Option<(Handle, Deal)>
    ensures { result ≡ lookup transactions.now w }
{
    let t = transactions.get(w as usize)?;
    t.deal.map(|d| (Handle(w as u8), d))
}

// What the handle word in the caller's R1 finds.
#[tactic(auto, unfolding(model::specs::HandleCall::own_found))]
pub fn own_found(machine: &Machine) -> Option<(Handle, Deal)>
    requires { machine.now.current.0 < GUESTS }
    ensures { result ≡ own_found machine.now }
{
    lookup(&machine.transactions, reply::argument(machine, 1))
}

// Every page of the transaction has its row.
#[tactic(auto, unfolding(model::specs::State::page_at))]
fn in_place(machine: &Machine, h: Handle, d: Deal) -> bool
    requires { Dealt machine.now h d }
    ensures { result ≡ in_place machine.now h d }
{
    let t = deeds::transaction_at(machine, h);
    pages::all_have(&machine.records, pages::held(&t), parts::row(d))
}

// The tests behind the look-up, in their order: the caller is the party that may, the retrieved mark is as it must be, and
// each page has its row.
#[tactic(auto, unfolding(parts::proofs::Answers::answering))]
pub fn tested(machine: &Machine, h: Handle, d: Deal, may: bool, marked: bool) -> Result<(), Refusal>
    requires { Dealt machine.now h d }
    ensures { verdict_of result ≡ need may DENIED (need marked DENIED (need (in_place machine.now h d) ABORTED passes)) }
{
    if !may {
        return Err(Refusal::Denied);
    }
    if !marked {
        return Err(Refusal::Denied);
    }
    if !in_place(machine, h, d) {
        return Err(Refusal::Aborted);
    }
    Ok(())
}
