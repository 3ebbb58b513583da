// The mailbox pages of the n guests: they differ, and they are pages of the machine.

ghost use Rattle.std.specs.Prelude.{◌≡◌, true, ◌≤◌};
ghost use Rattle.model.specs.Constants.{GUESTS, PAGES};
ghost use Rattle.model.specs.Sound.{mailboxes_differ, mailboxes_below};

use crate::marks;
use crate::pages::set_box;
use model::Mailbox;

// Each guest's pages are two, and neither is marked already by a guest before it.
#[tactic(auto, unfolding(crate::specs::Marks::box_marks, model::specs::State::mailbox_at, model::specs::Sound::mailboxes_differ))]
pub fn mailboxes_differ(n: u8, boxes: &[Mailbox; 8]) -> bool
    requires { (n ≤ GUESTS) × (mailboxes_below n PAGES boxes.now ≡ true) }
    ensures { result ≡ mailboxes_differ n boxes.now }
{
    let mut seen = [false; 64];
    for g in 0..n as usize {
        let mailbox = &boxes[g];
        if !marks::fresh_box(&seen, mailbox) {
            return false;
        }
        set_box(&mut seen, mailbox, true);
    }
    true
}

// Each guest's two pages are among the m pages.
#[tactic(auto, unfolding(model::specs::State::mailbox_at, model::specs::Sound::mailboxes_below))]
pub fn mailboxes_below(n: u8, m: u8, boxes: &[Mailbox; 8]) -> bool
    requires { n ≤ GUESTS }
    ensures { result ≡ mailboxes_below n m boxes.now }
{
    boxes
        .iter()
        .take(n as usize)
        .all(|mailbox| (mailbox.tx.0 < m) & (mailbox.rx.0 < m))
}
