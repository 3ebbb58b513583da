// One thing set for both pages of a mailbox, in an array with a place for each page of the largest machine. (For the pages of a
// transaction it is in `parts`.)

ghost use Rattle.std.specs.Prelude.{◌≡◌, ◌<◌, set};
ghost use Rattle.model.specs.Constants.{PAGES};

use model::Mailbox;

// The value at both pages of a mailbox.
pub fn set_box<T: Copy>(all: &mut [T; 64], mailbox: &Mailbox, value: T)
    requires { (mailbox.now.tx.0 < PAGES) × (mailbox.now.rx.0 < PAGES) }
    ensures { all.new ≡ set (set all.old mailbox.now.tx.0 value) mailbox.now.rx.0 value }
{
    all[mailbox.tx.0 as usize] = value;
    all[mailbox.rx.0 as usize] = value;
}
