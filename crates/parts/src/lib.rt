// What the layers above share, in small functions over parts of the state. Here: the test of the counts, sets of guests, the
// questions about a kind, the rows of the table of page records, and whether two records are the same. In the modules: words
// that become numbers of guests and pages, register files, mailboxes, the pages of a transaction, the numbers of calls and
// answers, and how a call is answered.
//
// A function means what the model's definition of the same name says, or what its contract names (those of `numbers`
// what `specs/Numbers.antt` says). Nothing else in the code makes a row or asks about a kind, and a guest's word becomes
// a number of a guest or a page in `numbers` only; a handle's is tested where its transaction is looked up.

#![tactic(auto)]

pub mod codes;
pub mod inboxes;
pub mod numbers;
pub mod pages;
mod refusal;
pub mod registers;
pub mod reply;

ghost use Rattle.std.specs.Prelude.{◌≡◌, ◌<◌, ltb, true};
ghost use Rattle.model.specs.Constants.{GUESTS};
ghost use Rattle.model.specs.State.{is_primary};
ghost use Rattle.model.specs.VmSet.{has, only, with};
ghost use Rattle.model.specs.Row.{shares, donates, sends, receives, holders, mailbox_row, owned_row, free_row, row, same_record};
ghost use Rattle.model.specs.Sound.{if_owned, counts_in_range};

use model::{Deal, Kind, PageRecord, VmId, VmSet};
pub use refusal::Refusal;

// Numbers of guests.

// Whether g is guest 0.
#[tactic(auto, unfolding(model::specs::State::is_primary, model::specs::State::same_vm))]
pub fn is_primary(g: VmId) -> bool
    ensures { result ≡ is_primary g }
{
    g == VmId(0)
}

// The counts of guests and of pages.

// 2 to 8 guests, and pages for two mailboxes each up to 64.
#[tactic(auto, unfolding(model::specs::Sound::counts_in_range, isa::proofs::Tests::joined))]
pub fn counts_in_range(n: u16, m: u16) -> bool
    ensures { result ≡ counts_in_range n m }
{
    2 <= n && n <= 8 && 2 * n <= m && m <= 64
}

// Sets of guests.

// Whether guest g is in the set.
#[tactic(auto, unfolding(model::specs::VmSet::has))]
pub fn has(g: VmId, set: VmSet) -> bool
    requires { g.0 < GUESTS }
    ensures { result ≡ has g set }
{
    (set.0 >> g.0) % 2 == 1
}

// The set of guest g alone.
#[tactic(auto, unfolding(model::specs::VmSet::only))]
pub fn only(g: VmId) -> VmSet
    requires { g.0 < GUESTS }
    ensures { result ≡ only g }
{
    VmSet(1 << g.0)
}

// The set with guest g in it; the bit is added only if it is clear, so the sum fits.
#[tactic(auto, unfolding(model::specs::VmSet::only, model::specs::VmSet::with))]
pub fn with(g: VmId, set: VmSet) -> VmSet
    requires { g.0 < GUESTS }
    ensures { result ≡ with g set }
{
    if has(g, set) {
        set
    } else {
        VmSet(set.0 + only(g).0)
    }
}

// Kinds.

// Whether the sender keeps its access.
#[tactic(auto, unfolding(model::specs::Row::shares))]
pub fn shares(kind: Kind) -> bool
    ensures { result ≡ shares kind }
{
    kind == Kind::Share
}

// Whether the pages change their owner at the retrieve.
#[tactic(auto, unfolding(model::specs::Row::donates))]
pub fn donates(kind: Kind) -> bool
    ensures { result ≡ donates kind }
{
    kind == Kind::Donate
}

// Parties of a transaction.

// Whether g is the sender.
#[tactic(auto, unfolding(model::specs::Row::sends, model::specs::State::same_vm))]
pub fn sends(d: Deal, g: VmId) -> bool
    ensures { result ≡ sends d g }
{
    d.sender == g
}

// Whether g is the receiver.
#[tactic(auto, unfolding(model::specs::Row::receives, model::specs::State::same_vm))]
pub fn receives(d: Deal, g: VmId) -> bool
    ensures { result ≡ receives d g }
{
    d.receiver == g
}

// Those to whom a transaction's pages have gone.
#[tactic(auto, unfolding(model::specs::Row::holders))]
pub fn holders(d: Deal) -> VmSet
    requires { d.receiver.0 < GUESTS }
    ensures { result ≡ holders d }
{
    if d.retrieved {
        only(d.receiver)
    } else {
        VmSet(0)
    }
}

// Rows.

// A mailbox page of guest g.
#[tactic(auto, unfolding(model::specs::Row::mailbox_row))]
pub fn mailbox_row(g: VmId) -> PageRecord
    requires { g.0 < GUESTS }
    ensures { result ≡ mailbox_row g }
{
    PageRecord {
        owner: None,
        access: only(g),
        exclusive: true,
    }
}

// A page in no transaction: its owner's, or spare.
#[tactic(auto, unfolding(model::specs::Row::free_row))]
pub fn free_row(owner: Option<VmId>) -> PageRecord
    requires { if_owned owner (λ g. ltb g.0 GUESTS) ≡ true }
    ensures { result ≡ free_row owner }
{
    match owner {
        Some(g) => owned_row(g),
        None => PageRecord {
            owner: None,
            access: VmSet(0),
            exclusive: false,
        },
    }
}

// A page in no transaction that guest g owns.
#[tactic(auto, unfolding(model::specs::Row::free_row))]
pub fn owned_row(g: VmId) -> PageRecord
    requires { g.0 < GUESTS }
    ensures { result ≡ owned_row g }
{
    PageRecord {
        owner: Some(g),
        access: only(g),
        exclusive: true,
    }
}

// A page in a transaction: a share leaves the sender its access and takes the exclusive mark.
pub fn row(d: Deal) -> PageRecord
    requires { (d.sender.0 < GUESTS) × (d.receiver.0 < GUESTS) }
    ensures { result ≡ row d }
{
    let held = holders(d);
    let shared = shares(d.kind);
    PageRecord {
        owner: Some(d.sender),
        access: if shared { with(d.sender, held) } else { held },
        exclusive: !shared,
    }
}

// Whether two records are the same: owner, access and mark.
pub fn same_record(a: PageRecord, b: PageRecord) -> bool
    ensures { result ≡ same_record a b }
{
    a == b
}
