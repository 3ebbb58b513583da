// Unused places are blank: guests from n, pages from m, and a transaction's page slots from its count.

ghost use Rattle.std.specs.Prelude.{◌≡◌, ltb, eqb};
ghost use Rattle.isa.specs.Tests.{◌or◌};
ghost use Rattle.model.specs.Constants.{PLACES};
ghost use Rattle.model.specs.Tests.{every};
ghost use Rattle.model.specs.State.{page, same_page, register, page_at, count_of};
ghost use Rattle.model.specs.Sound.{blank_guest, guests_blank, pages_blank, places_blank};

use model::{Mailbox, Message, PageRecord, Registers, Transaction};

// All eight registers are zero.
#[tactic(auto, unfolding(model::specs::State::register))]
fn registers_zero(file: &Registers) -> bool
    ensures { result ≡ every 8 (λ i. eqb (register file.now i) 0) }
{
    file.r.iter().all(|w| *w == 0)
}

// Nothing is kept of this guest.
#[tactic(auto, unfolding(model::specs::Sound::blank_guest, model::specs::State::same_page))]
fn blank_guest(file: &Registers, mailbox: &Mailbox, inbox: Option<Message>) -> bool
    ensures { result ≡ blank_guest file.now mailbox.now inbox }
{
    registers_zero(file)
        & ((file.pc == 0)
            & (!file.equal & ((mailbox.tx.0 == 0) & ((mailbox.rx.0 == 0) & inbox.is_none()))))
}

// Every guest from n on is blank.
#[tactic(auto, unfolding(model::specs::Sound::guests_blank, model::specs::State::inbox_at, model::specs::State::mailbox_at, model::specs::State::registers_at))]
pub fn guests_blank(
    n: u8,
    files: &[Registers; 8],
    boxes: &[Mailbox; 8],
    inboxes: &[Option<Message>; 8],
) -> bool
    ensures { result ≡ guests_blank n files.now boxes.now inboxes.now }
{
    files
        .iter()
        .zip(boxes.iter())
        .zip(inboxes.iter())
        .skip(n as usize)
        .all(|((file, mailbox), inbox)| blank_guest(file, mailbox, *inbox))
}

// Every page from m on has the record of a spare page.
#[tactic(auto, unfolding(model::specs::Sound::if_owned, model::specs::Sound::pages_blank, model::specs::State::record_at))]
pub fn pages_blank(m: u8, records: &[PageRecord; 64]) -> bool
    ensures { result ≡ pages_blank m records.now }
{
    let blank = parts::free_row(None);
    records
        .iter()
        .skip(m as usize)
        .all(|record| parts::same_record(*record, blank))
}

// Every page slot from the transaction's count on is zero.
#[tactic(auto, unfolding(model::specs::State::page_at, model::specs::State::same_page))]
fn spare_blank(t: &Transaction) -> bool
    ensures { result ≡ every PLACES (λ i. ltb i (count_of t.now) or same_page (page_at t.now i) (page 0)) }
{
    let count = parts::pages::count_of(*t) as usize;
    t.pages.iter().skip(count).all(|page| page.0 == 0)
}

// The spare slots of every transaction are zero; of a free one all are spare.
#[tactic(auto, unfolding(model::specs::Sound::places_blank, model::specs::State::transaction_at))]
pub fn places_blank(transactions: &[Transaction; 16]) -> bool
    ensures { result ≡ places_blank transactions.now }
{
    transactions.iter().all(|t| spare_blank(t))
}
