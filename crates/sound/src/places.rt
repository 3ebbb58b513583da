// The pages of the transactions: in rising order, pages of the machine, nobody's mailbox, and in one transaction only.

ghost use Rattle.std.specs.Prelude.{◌≡◌, true, ◌≤◌, ltb};
ghost use Rattle.model.specs.Constants.{GUESTS, PAGES, PLACES};
ghost use Rattle.model.specs.Tests.{every, ascending};
ghost use Rattle.model.specs.State.{page_at, count_of};
ghost use Rattle.model.specs.Sound.{page_counts_in_range, mailboxes_below, pages_ascend, pages_below, pages_no_mailbox, no_page_twice};

use crate::marks;
use model::{Mailbox, Transaction};
use parts::pages::{held, set_held};

// Each page of the transaction is below the next.
#[tactic(auto, unfolding(model::specs::Tests::ascending, model::specs::State::page_at))]
fn ascends(t: &Transaction) -> bool
    requires { count_of t.now ≤ PLACES }
    ensures { result ≡ ascending (count_of t.now) (λ i. (page_at t.now i).0) }
{
    held(t).is_sorted_by(|p, q| p.0 < q.0)
}

// So for every handle.
#[tactic(auto, unfolding(model::specs::Sound::pages_ascend, model::specs::State::transaction_at))]
pub fn pages_ascend(transactions: &[Transaction; 16]) -> bool
    requires { page_counts_in_range transactions.now ≡ true }
    ensures { result ≡ pages_ascend transactions.now }
{
    transactions.iter().all(|t| ascends(t))
}

// Each page of the transaction is among the m pages.
#[tactic(auto, unfolding(model::specs::State::page_at))]
fn all_below(m: u8, t: &Transaction) -> bool
    requires { count_of t.now ≤ PLACES }
    ensures { result ≡ every (count_of t.now) (λ i. ltb (page_at t.now i).0 m) }
{
    held(t).iter().all(|page| page.0 < m)
}

// So for every handle.
#[tactic(auto, unfolding(model::specs::Sound::each_page, model::specs::Sound::pages_below, model::specs::State::transaction_at))]
pub fn pages_below(m: u8, transactions: &[Transaction; 16]) -> bool
    requires { page_counts_in_range transactions.now ≡ true }
    ensures { result ≡ pages_below m transactions.now }
{
    transactions.iter().all(|t| all_below(m, t))
}

// No page of a transaction has a mailbox's mark.
#[tactic(auto, unfolding(model::specs::Sound::each_page, model::specs::State::transaction_at))]
pub fn pages_no_mailbox(n: u8, boxes: &[Mailbox; 8], transactions: &[Transaction; 16]) -> bool
    requires { (n ≤ GUESTS) × (mailboxes_below n PAGES boxes.now ≡ true) × (page_counts_in_range transactions.now ≡ true) × (pages_below PAGES transactions.now ≡ true) }
    ensures { result ≡ pages_no_mailbox n boxes.now transactions.now }
{
    let seen = marks::box_marks(n, boxes);
    transactions.iter().all(|t| marks::fresh_pages(&seen, t))
}

// No page of a transaction has the mark of a transaction before it.
#[tactic(auto, unfolding(crate::specs::Marks::held_marks, model::specs::Sound::no_page_twice, model::specs::State::transaction_at))]
pub fn no_page_twice(transactions: &[Transaction; 16]) -> bool
    requires { (page_counts_in_range transactions.now ≡ true) × (pages_below PAGES transactions.now ≡ true) }
    ensures { result ≡ no_page_twice transactions.now }
{
    let mut seen = [false; 64];
    for t in transactions {
        if !marks::fresh_pages(&seen, t) {
            return false;
        }
        set_held(&mut seen, t, true);
    }
    true
}
