// What a record may say after those before it, and what it adds to the machine so far.

ghost use Rattle.std.specs.Prelude.{◌≡◌, true, ◌≤◌, ◌<◌};
ghost use Rattle.model.specs.Constants.{GUESTS, PAGES};
ghost use Rattle.image.specs.Drafts.{Ranged, begun, unused, describable, ownable, inside, complete, fits, is_counts, may_stand, with_counts, with_guest, with_owner, with_budget, taken};

use crate::{Content, Draft};
use model::{Mailbox, Mode, PageId, VmId, VmSet};

// Kind 4: so many words from an address on lie inside the memory of m pages.
#[tactic(auto, unfolding(crate::specs::Drafts::inside))]
fn inside(m: u8, address: u32, count: usize) -> bool
    ensures { result ≡ inside m address count }
{
    let size = 1024 * (m as usize);
    count <= size && address as usize <= size - count
}

// Kind 5: every guest is described.
fn complete(n: u8, described: VmSet) -> bool
    requires { n ≤ GUESTS }
    ensures { result ≡ complete n described }
{
    (0..n).all(|g| parts::has(VmId(g), described))
}

impl Content {
    // Whether it is a kind 1.
    #[tactic(auto, unfolding(crate::specs::Drafts::is_counts))]
    fn is_counts(self) -> bool
        ensures { result ≡ is_counts self }
    {
        matches!(self, Content::Counts { .. })
    }
}

impl Draft {
    // Before the first record.
    #[tactic(auto, unfolding(crate::specs::Drafts::begun))]
    pub fn begun() -> Draft
        ensures { result ≡ begun }
    {
        Draft {
            machine: crate::empty_machine(Mode::Normal),
            described: VmSet(0),
            budget: None,
        }
    }

    // What a record may say.

    // Whether this is a page that has no use so far.
    #[tactic(auto, unfolding(model::specs::Sound::if_owned, model::specs::State::record_at, crate::specs::Drafts::unused, isa::proofs::Tests::joined))]
    fn unused(&self, p: u16) -> bool
        requires { self.now.machine.m ≤ PAGES }
        ensures { result ≡ unused self.now.machine.m self.now.machine.records p }
    {
        p < u16::from(self.machine.m)
            && parts::same_record(self.machine.records[p as usize], parts::free_row(None))
    }

    // Kind 2: a guest that is not described yet, and two pages for its mailboxes.
    #[tactic(auto, unfolding(crate::specs::Drafts::describable, isa::proofs::Tests::joined))]
    fn describable(&self, guest: u16, tx: u16, rx: u16) -> bool
        requires { Ranged self.now }
        ensures { result ≡ describable self.now guest tx rx }
    {
        guest < u16::from(self.machine.n)
            && !parts::has(VmId(guest as u8), self.described)
            && tx != rx
            && self.unused(tx)
            && self.unused(rx)
    }

    // Kind 3: a page, and a guest to own it.
    #[tactic(auto, unfolding(crate::specs::Drafts::ownable, isa::proofs::Tests::joined))]
    fn ownable(&self, page: u16, owner: u16) -> bool
        requires { self.now.machine.m ≤ PAGES }
        ensures { result ≡ ownable self.now page owner }
    {
        self.unused(page) && owner < u16::from(self.machine.n)
    }

    // By its kind.
    #[tactic(auto, unfolding(crate::specs::Drafts::fits))]
    fn fits(&self, content: Content) -> bool
        requires { Ranged self.now }
        ensures { result ≡ fits self.now content }
    {
        match content {
            Content::Counts { n, m } => parts::counts_in_range(n, m),
            Content::Described { guest, tx, rx, .. } => self.describable(guest, tx, rx),
            Content::Owned { page, owner } => self.ownable(page, owner),
            Content::Words { address, count } => inside(self.machine.m, address, count),
            Content::Budget { .. } => complete(self.machine.n, self.described),
        }
    }

    // Also in its place: kind 1 first and only there, and nothing behind kind 5.
    #[tactic(auto, unfolding(model::specs::Tests::agree, crate::specs::Drafts::may_stand, isa::proofs::Tests::joined))]
    pub fn may_stand(&self, at: usize, content: Content) -> bool
        requires { Ranged self.now }
        ensures { result ≡ may_stand at self.now content }
    {
        self.budget.is_none() && (at == 0) == content.is_counts() && self.fits(content)
    }

    // What it adds.

    // The numbers of guests and pages.
    #[tactic(auto, unfolding(crate::specs::Drafts::with_counts))]
    fn with_counts(&mut self, n: u8, m: u8)
        ensures { self.new ≡ with_counts self.old n m }
    {
        self.machine.n = n;
        self.machine.m = m;
    }

    // A guest: where it starts, its mailboxes, and the records of their pages.
    #[tactic(auto, unfolding(model::specs::State::registers_at, crate::specs::Drafts::with_guest))]
    fn with_guest(&mut self, g: VmId, tx: PageId, rx: PageId, pc: u32)
        requires { (g.0 < GUESTS) × (tx.0 < PAGES) × (rx.0 < PAGES) }
        ensures { self.new ≡ with_guest self.old g tx rx pc }
    {
        let i = g.0 as usize;
        self.machine.registers[i].pc = pc;
        self.machine.mailboxes[i] = Mailbox { tx, rx };
        let row = parts::mailbox_row(g);
        self.machine.records[tx.0 as usize] = row;
        self.machine.records[rx.0 as usize] = row;
        self.described = parts::with(g, self.described);
    }

    // A page's owner.
    #[tactic(auto, unfolding(crate::specs::Drafts::with_owner))]
    fn with_owner(&mut self, page: PageId, g: VmId)
        requires { (page.0 < PAGES) × (g.0 < GUESTS) }
        ensures { self.new ≡ with_owner self.old page g }
    {
        self.machine.records[page.0 as usize] = parts::owned_row(g);
    }

    // The budget, and that nothing may follow.
    #[tactic(auto, unfolding(crate::specs::Drafts::with_budget))]
    fn with_budget(&mut self, steps: u32)
        ensures { self.new ≡ with_budget self.old steps }
    {
        self.budget = Some(steps);
    }

    // By its kind; words are for the memory, and add nothing here. The draft is changed where it stands, since a copy of
    // its machine for each record costs more than reading the record.
    #[tactic(auto, unfolding(crate::specs::Drafts::fits, crate::specs::Drafts::taken, crate::specs::Drafts::describable, crate::specs::Drafts::ownable, crate::specs::Drafts::unused, model::specs::Sound::counts_in_range, isa::proofs::Tests::joined))]
    pub(crate) fn take(&mut self, content: Content)
        requires { Ranged self.old × (fits self.old content ≡ true) }
        ensures { self.new ≡ taken self.old content }
    {
        match content {
            Content::Counts { n, m } => self.with_counts(n as u8, m as u8),
            Content::Described { guest, tx, rx, pc } => {
                self.with_guest(VmId(guest as u8), PageId(tx as u8), PageId(rx as u8), pc)
            }
            Content::Owned { page, owner } => {
                self.with_owner(PageId(page as u8), VmId(owner as u8))
            }
            Content::Words { .. } => {}
            Content::Budget { steps } => self.with_budget(steps),
        }
    }

    // The same, given back.
    pub fn taken(self, content: Content) -> Draft
        requires { Ranged self × (fits self content ≡ true) }
        ensures { result ≡ taken self content }
    {
        let mut draft = self;
        draft.take(content);
        draft
    }
}
