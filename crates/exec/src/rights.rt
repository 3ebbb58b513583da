// The rights of a guest, computed from the page records: two maps with a bit for each page.

ghost use Rattle.std.specs.Prelude.{◌≡◌, ◌^◌, ◌<◌, ◌≤◌};
ghost use Rattle.model.specs.Constants.{GUESTS, PAGES};
ghost use Rattle.exec.specs.Maps.{with_page, pages_for};

use model::{Mailbox, PageRecord, VmId};

// The pages that a guest may fetch and load from, and those that it may store to.
#[derive(Clone, Copy)]
pub struct Maps {
    pub loads: u64,
    pub stores: u64,
}

// A map with one page more in front of it.
#[tactic(auto, unfolding(crate::specs::Maps::with_page))]
fn with_page(map: u64, allowed: bool) -> u64
    requires { map < 2 ^ 63 }
    ensures { result ≡ with_page map allowed }
{
    map * 2 + allowed as u64
}

// The rights of guest g to the first m pages: those that it has access to, but for its own TX page, which it does not
// load from, and its own RX page, which it does not store to.
pub fn maps_of(records: &[PageRecord; 64], m: u8, g: VmId, own: Mailbox) -> Maps
    requires { (g.0 < GUESTS) × (m ≤ PAGES) }
    ensures { (result.loads ≡ pages_for records.now m g own.tx) × (result.stores ≡ pages_for records.now m g own.rx) }
{
    let mut loads: u64 = 0;
    let mut stores: u64 = 0;
    for p in (0..m).rev() {
        let reached = parts::has(g, records[p as usize].access);
        loads = with_page(loads, reached & (p != own.tx.0));
        stores = with_page(stores, reached & (p != own.rx.0));
    }
    Maps { loads, stores }
}
