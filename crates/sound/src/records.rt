// The records that the table asks for, and whether the machine's are these.

ghost use Rattle.std.specs.Prelude.{◌≡◌, true, None, ℕ, ◌≤◌, ◌<◌, length};
ghost use Rattle.model.specs.Constants.{GUESTS, PAGES, HANDLES};
ghost use Rattle.model.specs.State.{page, record_at};
ghost use Rattle.model.specs.Due.{due_in, due};
ghost use Rattle.model.specs.Sound.{page_counts_in_range, mailboxes_below, owners_below, parties_below, pages_below, records_due};
ghost use Rattle.sound.specs.Rows.{free_rows, Held, held_rows, box_rows, Usable};

use crate::pages::set_box;
use model::{Mailbox, PageRecord, Transaction, VmId};
use parts::pages::set_held;

// Each of the m pages by its owner, as if it were used for nothing.
#[tactic(auto, unfolding(crate::specs::Rows::free_rows, model::specs::State::record_at))]
fn free_rows(n: u8, m: u8, records: &[PageRecord; 64]) -> [PageRecord; 64]
    requires { (n ≤ GUESTS) × (m ≤ PAGES) × (owners_below n m records.now ≡ true) }
    ensures rows { result ≡ free_rows m records.now }
    ensures places { length records.now ≡ PAGES }
{
    let mut rows = *records;
    for p in 0..m as usize {
        rows[p] = parts::free_row(records[p].owner);
    }
    rows
}

// The row of a transaction's pages; a free one has none, and gets that of a spare page.
#[tactic(auto, unfolding(model::specs::Due::due_in, model::specs::Sound::if_owned))]
fn held_row(t: &Transaction) -> PageRecord
    requires { Held t.now }
    ensures { result ≡ due_in t.now.deal None }
{
    match t.deal {
        None => parts::free_row(None),
        Some(d) => parts::row(d),
    }
}

// Over them, the pages of the transactions.
#[tactic(auto, unfolding(crate::specs::Rows::held_rows, crate::specs::Rows::laid, model::specs::State::transaction_at))]
fn held_rows(transactions: &[Transaction; 16], rows: [PageRecord; 64]) -> [PageRecord; 64]
    requires { (page_counts_in_range transactions.now ≡ true) × (parties_below GUESTS transactions.now ≡ true) × (pages_below PAGES transactions.now ≡ true) }
    ensures rows { result ≡ held_rows HANDLES transactions.now rows }
    ensures places { length transactions.now ≡ HANDLES }
{
    let mut all = rows;
    for t in transactions {
        set_held(&mut all, t, held_row(t));
    }
    all
}

// Over those, the mailbox pages.
#[tactic(auto, unfolding(crate::specs::Rows::box_row, crate::specs::Rows::box_rows, crate::specs::Rows::laid, model::specs::State::mailbox_at))]
fn box_rows(n: u8, boxes: &[Mailbox; 8], rows: [PageRecord; 64]) -> [PageRecord; 64]
    requires { (n ≤ GUESTS) × (mailboxes_below n PAGES boxes.now ≡ true) }
    ensures { result ≡ box_rows n boxes.now rows }
{
    let mut all = rows;
    for g in 0..n {
        let mailbox = &boxes[g as usize];
        set_box(&mut all, mailbox, parts::mailbox_row(VmId(g)));
    }
    all
}

// The record due to each of the m pages.
pub fn due_records(
    n: u8,
    m: u8,
    boxes: &[Mailbox; 8],
    transactions: &[Transaction; 16],
    records: &[PageRecord; 64],
) -> [PageRecord; 64]
    requires { Usable n m boxes.now transactions.now records.now }
    ensures { (p : ℕ) → p < m → record_at result (page p) ≡ due n boxes.now transactions.now (record_at records.now (page p)).owner (page p) }
{
    let free = free_rows(n, m, records);
    let held = held_rows(transactions, free);
    box_rows(n, boxes, held)
}

// Each of the m records is the one due.
#[tactic(auto, unfolding(model::specs::State::record_at))]
pub fn records_due(
    n: u8,
    m: u8,
    boxes: &[Mailbox; 8],
    transactions: &[Transaction; 16],
    records: &[PageRecord; 64],
) -> bool
    requires { Usable n m boxes.now transactions.now records.now }
    ensures { result ≡ records_due n m boxes.now transactions.now records.now }
{
    let dues = due_records(n, m, boxes, transactions, records);
    records
        .iter()
        .zip(dues.iter())
        .take(m as usize)
        .all(|(record, due)| parts::same_record(*record, *due))
}
