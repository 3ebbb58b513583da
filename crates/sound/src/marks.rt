// Marks: one for each page of the largest machine, set where the page has been met. With them no page need be compared
// with every other. They are lent to the functions that read and set them, not copied.

ghost use Rattle.std.specs.Prelude.{◌≡◌, true, not, ◌≤◌, ◌<◌};
ghost use Rattle.isa.specs.Tests.{◌and◌};
ghost use Rattle.model.specs.Constants.{GUESTS, PAGES};
ghost use Rattle.model.specs.Tests.{every};
ghost use Rattle.model.specs.State.{same_page, page_at, count_of};
ghost use Rattle.model.specs.Sound.{mailboxes_below};
ghost use Rattle.parts.specs.Reached.{Reached};
ghost use Rattle.sound.specs.Marks.{marked, box_marks};

use crate::pages::set_box;
use model::{Mailbox, Transaction};
use parts::pages::held;

// A guest's two pages differ, and neither is marked.
#[tactic(auto, unfolding(crate::specs::Marks::marked, model::specs::State::same_page))]
pub fn fresh_box(seen: &[bool; 64], mailbox: &Mailbox) -> bool
    requires { (mailbox.now.tx.0 < PAGES) × (mailbox.now.rx.0 < PAGES) }
    ensures { result ≡ (not (same_page mailbox.now.tx mailbox.now.rx) and not (marked seen.now mailbox.now.tx) and not (marked seen.now mailbox.now.rx)) }
{
    let tx = mailbox.tx.0 as usize;
    let rx = mailbox.rx.0 as usize;
    (tx != rx) & (!seen[tx] & !seen[rx])
}

// The marks of the n guests' mailbox pages.
#[tactic(auto, unfolding(crate::specs::Marks::box_marks, model::specs::State::mailbox_at))]
pub fn box_marks(n: u8, boxes: &[Mailbox; 8]) -> [bool; 64]
    requires { (n ≤ GUESTS) × (mailboxes_below n PAGES boxes.now ≡ true) }
    ensures { result ≡ box_marks n boxes.now }
{
    let mut marks = [false; 64];
    for mailbox in &boxes[..n as usize] {
        set_box(&mut marks, mailbox, true);
    }
    marks
}

// None of a transaction's pages is marked.
#[tactic(auto, unfolding(crate::specs::Marks::marked, model::specs::State::page_at))]
pub fn fresh_pages(seen: &[bool; 64], t: &Transaction) -> bool
    requires { Reached t.now }
    ensures { result ≡ every (count_of t.now) (λ i. not (marked seen.now (page_at t.now i))) }
{
    held(t).iter().all(|page| !seen[page.0 as usize])
}
