// The counts of the transactions' pages. (Those of guests and pages are asked in `parts`, those of a message's words are with
// the messages.)

ghost use Rattle.std.specs.Prelude.{◌≡◌, leb};
ghost use Rattle.isa.specs.Tests.{◌and◌};
ghost use Rattle.model.specs.Constants.{PLACES};
ghost use Rattle.model.specs.Sound.{if_live, page_counts_in_range};

use model::{Deal, Transaction};

// A live transaction has 1 to 8 pages.
#[tactic(auto, unfolding(model::specs::Sound::if_live, isa::proofs::Tests::joined))]
fn page_count_in_range(deal: Option<Deal>) -> bool
    ensures { result ≡ if_live deal (λ d. leb 1 d.count and leb d.count PLACES) }
{
    deal.is_none_or(|d| (1 <= d.count) & (d.count <= 8))
}

// So for every handle.
#[tactic(auto, unfolding(model::specs::Sound::each_deal, model::specs::Sound::page_counts_in_range, model::specs::State::transaction_at))]
pub fn page_counts_in_range(transactions: &[Transaction; 16]) -> bool
    ensures { result ≡ page_counts_in_range transactions.now }
{
    transactions.iter().all(|t| page_count_in_range(t.deal))
}
