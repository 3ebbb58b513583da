// The pages of a transaction: how many and which they are, one thing set for all of them, and whether their records are alike.

ghost use Rattle.std.specs.Prelude.{◌≡◌, ℕ, ◌≤◌, ◌<◌, get_or, length, take};
ghost use Rattle.std.specs.List.{list_all};
ghost use Rattle.model.specs.Constants.{PAGES, PLACES};
ghost use Rattle.model.specs.State.{page, record_at, page_at, count_of};
ghost use Rattle.model.specs.Row.{same_record};
ghost use Rattle.model.specs.Tests.{set_each};
ghost use Rattle.parts.specs.Reached.{Reached};

use model::{PageId, PageRecord, Transaction};

// How many pages a transaction has: a free one has none.
#[tactic(auto, unfolding(model::specs::State::count_in, model::specs::State::count_of))]
pub fn count_of(t: Transaction) -> u8
    ensures { result ≡ count_of t }
{
    t.deal.map_or(0, |d| d.count)
}

// The pages that a transaction holds.
pub fn held(t: &Transaction) -> &[PageId]
    requires { count_of t.now ≤ PLACES }
    ensures { (length result.now ≡ count_of t.now) × (result.now ≡ take (count_of t.now) t.now.pages) }
{
    &t.pages[..count_of(*t) as usize]
}

// One value for all of them, in an array with a place for each page of the largest machine.
pub fn set_held<T: Copy>(all: &mut [T; 64], t: &Transaction, value: T)
    requires { Reached t.now }
    ensures { all.new ≡ set_each (count_of t.now) (λ i. (page_at t.now i).0) (λ i. value) all.old }
{
    for page in held(t) {
        all[page.0 as usize] = value;
    }
}

// Each of the pages has this record.
#[tactic(auto, unfolding(model::specs::State::record_at))]
pub fn all_have(records: &[PageRecord; 64], pages: &[PageId], due: PageRecord) -> bool
    requires { (i : ℕ) → i < length pages.now → (get_or pages.now i (page 0)).0 < PAGES }
    ensures { result ≡ list_all (λ p. same_record (record_at records.now p) due) pages.now }
{
    pages
        .iter()
        .all(|p| crate::same_record(records[p.0 as usize], due))
}
