// What passing calls do to the page records and the transactions: from a handle and its deal, with no caller and no
// registers.

ghost use Rattle.std.specs.Prelude.{◌≡◌, ◌<◌};
ghost use Rattle.model.specs.Constants.{GUESTS, HANDLES};
ghost use Rattle.model.specs.State.{transaction_at};
ghost use Rattle.model.specs.Row.{owned_row, row};
ghost use Rattle.model.specs.Deeds.{settled, freed, marked, redealt, retrieved, relinquished, reclaimed};
ghost use Rattle.parts.specs.Reached.{Reached};
ghost use Rattle.handles.specs.Deeds.{Dealt};

use model::{Deal, Handle, Machine, PageId, PageRecord, Transaction, VmId};
use parts::pages;

// The transaction in a handle's place.
#[tactic(auto, unfolding(model::specs::State::transaction_at))]
pub fn transaction_at(machine: &Machine, h: Handle) -> Transaction
    requires { h.0 < HANDLES }
    ensures { result ≡ transaction_at machine.now.transactions h }
{
    machine.transactions[h.0 as usize]
}

// Handle h's place holds the transaction new, and the pages of t get the record due.
#[tactic(auto, unfolding(model::specs::Deeds::recorded, model::specs::Deeds::settled))]
pub fn settled(
    mut machine: Machine,
    h: Handle,
    new: Transaction,
    t: Transaction,
    due: PageRecord,
) -> Machine
    requires { (h.0 < HANDLES) × Reached t }
    ensures { result ≡ settled machine h new t due }
{
    machine.transactions[h.0 as usize] = new;
    pages::set_held(&mut machine.records, &t, due);
    machine
}

// The pages are guest g's own, and the handle is done with.
fn owned_by(machine: Machine, h: Handle, g: VmId) -> Machine
    requires { (h.0 < HANDLES) × Reached (transaction_at machine.transactions h) × (g.0 < GUESTS) }
    ensures { result ≡ settled machine h freed (transaction_at machine.transactions h) (owned_row g) }
{
    let free = Transaction {
        deal: None,
        pages: [PageId(0); 8],
    };
    let t = transaction_at(&machine, h);
    settled(machine, h, free, t, parts::owned_row(g))
}

// The same deal over the same pages, with the retrieved mark as given.
#[tactic(auto, unfolding(model::specs::Deeds::marked, model::specs::Deeds::redealt))]
fn with_mark(machine: Machine, h: Handle, d: Deal, retrieved: bool) -> Machine
    requires { Dealt machine h d }
    ensures { let t = transaction_at machine.transactions h in
        result ≡ settled machine h (redealt t (marked d retrieved)) t (row (marked d retrieved)) }
{
    let d = Deal { retrieved, ..d };
    let t = transaction_at(&machine, h);
    let new = Transaction { deal: Some(d), ..t };
    settled(machine, h, new, t, parts::row(d))
}

// Retrieving: the pages of a donation become the receiver's own, and its handle is done with; others are marked.
#[tactic(auto, unfolding(model::specs::Deeds::retrieved))]
pub fn retrieved(machine: Machine, h: Handle, d: Deal) -> Machine
    requires { Dealt machine h d }
    ensures { result ≡ retrieved machine h d }
{
    if parts::donates(d.kind) {
        owned_by(machine, h, d.receiver)
    } else {
        with_mark(machine, h, d, true)
    }
}

// Relinquishing: the mark goes.
#[tactic(auto, unfolding(model::specs::Deeds::relinquished))]
pub fn relinquished(machine: Machine, h: Handle, d: Deal) -> Machine
    requires { Dealt machine h d }
    ensures { result ≡ relinquished machine h d }
{
    with_mark(machine, h, d, false)
}

// Reclaiming: the pages are the sender's own again, and the handle is done with.
#[tactic(auto, unfolding(model::specs::Deeds::reclaimed))]
pub fn reclaimed(machine: Machine, h: Handle, d: Deal) -> Machine
    requires { Dealt machine h d }
    ensures { result ≡ reclaimed machine h d }
{
    owned_by(machine, h, d.sender)
}
