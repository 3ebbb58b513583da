// Live transactions, apart from their pages: the two parties, and the mark of a donation.

ghost use Rattle.std.specs.Prelude.{◌≡◌, not, ltb};
ghost use Rattle.isa.specs.Tests.{◌and◌};
ghost use Rattle.model.specs.State.{same_vm};
ghost use Rattle.model.specs.Row.{donates};
ghost use Rattle.model.specs.Sound.{if_live, parties_differ, parties_below, no_donation_retrieved};

use model::{Deal, Transaction};

// Nobody deals with itself.
#[tactic(auto, unfolding(model::specs::Sound::if_live, model::specs::State::same_vm, isa::proofs::Tests::joined))]
fn two_parties(deal: Option<Deal>) -> bool
    ensures { result ≡ if_live deal (λ d. not (same_vm d.sender d.receiver)) }
{
    deal.is_none_or(|d| d.sender != d.receiver)
}

// So for every handle.
#[tactic(auto, unfolding(model::specs::Sound::each_deal, model::specs::Sound::parties_differ, model::specs::State::transaction_at))]
pub fn parties_differ(transactions: &[Transaction; 16]) -> bool
    ensures { result ≡ parties_differ transactions.now }
{
    transactions.iter().all(|t| two_parties(t.deal))
}

// Both parties are among the n guests.
#[tactic(auto, unfolding(model::specs::Sound::if_live, model::specs::State::same_vm, isa::proofs::Tests::joined))]
fn both_below(n: u8, deal: Option<Deal>) -> bool
    ensures { result ≡ if_live deal (λ d. ltb d.sender.0 n and ltb d.receiver.0 n) }
{
    deal.is_none_or(|d| (d.sender.0 < n) & (d.receiver.0 < n))
}

// So for every handle.
#[tactic(auto, unfolding(model::specs::Sound::each_deal, model::specs::Sound::parties_below, model::specs::State::transaction_at))]
pub fn parties_below(n: u8, transactions: &[Transaction; 16]) -> bool
    ensures { result ≡ parties_below n transactions.now }
{
    transactions.iter().all(|t| both_below(n, t.deal))
}

// A donation has no retrieved mark: retrieved, it is done with.
#[tactic(auto, unfolding(model::specs::Sound::if_live, model::specs::State::same_vm, isa::proofs::Tests::joined))]
fn no_retrieved_donation(deal: Option<Deal>) -> bool
    ensures { result ≡ if_live deal (λ d. not (donates d.kind and d.retrieved)) }
{
    deal.is_none_or(|d| !(parts::donates(d.kind) & d.retrieved))
}

// So for every handle.
#[tactic(auto, unfolding(model::specs::Sound::each_deal, model::specs::Sound::no_donation_retrieved, model::specs::State::transaction_at))]
pub fn no_donation_retrieved(transactions: &[Transaction; 16]) -> bool
    ensures { result ≡ no_donation_retrieved transactions.now }
{
    transactions.iter().all(|t| no_retrieved_donation(t.deal))
}
