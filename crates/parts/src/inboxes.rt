// A guest's mailbox pages.

ghost use Rattle.std.specs.Prelude.{◌≡◌, ◌<◌};
ghost use Rattle.model.specs.Constants.{GUESTS};
ghost use Rattle.model.specs.State.{mailbox_at};

use model::{Mailbox, VmId};

// The mailbox pages of guest g.
#[tactic(auto, unfolding(model::specs::State::mailbox_at))]
pub fn mailbox_at(boxes: &[Mailbox; 8], g: VmId) -> Mailbox
    requires { g.0 < GUESTS }
    ensures { result ≡ mailbox_at boxes.now g }
{
    boxes[g.0 as usize]
}
