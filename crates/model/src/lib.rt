// The state of the machine and what the entries answer: plain structs by value. What everything means stands in
// `specs/`, one file for each subject; the theorems about it are in `proofs/`.
//
// Nothing here tests a range. A value of these types may be any machine at all; whether it is a sound one is for
// `specs/Sound.antt` to say.

#![tactic(auto)]

ghost use Rattle.std.specs.Prelude.{◌≡◌};
ghost use Rattle.model.specs.Row.{kind_number};
ghost use Rattle.model.specs.Answer.{answer_number};

// The number of a guest. Numbers of guests, pages and handles are kept apart: none stands where another is due.
#[derive(Clone, Copy, PartialEq, Eq)]
pub struct VmId(pub u8);

// The number of a page.
#[derive(Clone, Copy, PartialEq, Eq)]
pub struct PageId(pub u8);

// The number that a transaction is known by.
#[derive(Clone, Copy, PartialEq, Eq)]
pub struct Handle(pub u8);

// A set of guests: bit g is set if guest g is in it.
#[derive(Clone, Copy, PartialEq, Eq)]
pub struct VmSet(pub u8);

// A guest's register file.
#[derive(Clone, Copy)]
pub struct Registers {
    pub r: [u32; 8],
    pub pc: u32,
    pub equal: bool,
}

// A guest's mailbox pages. It writes TX and reads RX.
#[derive(Clone, Copy)]
pub struct Mailbox {
    pub tx: PageId,
    pub rx: PageId,
}

// A message that waits in a guest's RX page. The RX state is one of these, or nothing.
#[derive(Clone, Copy)]
pub struct Message {
    pub length: u32,
    pub sender: VmId,
}

// What the machine keeps of a page: its owner, if it has one, which lending and sharing leave; who has access; and whether that
// is nobody else.
#[derive(Clone, Copy, PartialEq, Eq)]
pub struct PageRecord {
    pub owner: Option<VmId>,
    pub access: VmSet,
    pub exclusive: bool,
}

// How pages are sent.
#[derive(Clone, Copy, PartialEq, Eq)]
pub enum Kind {
    Donate,
    Lend,
    Share,
}

// The number of a kind in a descriptor.
impl From<Kind> for u32 {
    ghost from_gives = { λ kind number. number ≡ kind_number kind };

    #[tactic(auto, unfolding(crate::specs::Row::kind_number))]
    fn from(kind: Kind) -> u32 {
        match kind {
            Kind::Donate => 1,
            Kind::Lend => 2,
            Kind::Share => 3,
        }
    }
}

// A live transaction, but for its pages.
#[derive(Clone, Copy)]
pub struct Deal {
    pub sender: VmId,
    pub receiver: VmId,
    pub kind: Kind,
    pub retrieved: bool,
    pub count: u8,
}

// A handle's place in the machine: the deal that is live under it, if one is. The pages stand beside it; those from the deal's
// count on are spare, and of a free handle all.
#[derive(Clone, Copy)]
pub struct Transaction {
    pub deal: Option<Deal>,
    pub pages: [PageId; 8],
}

// Whether the machine goes on. Only a normal one takes a step or a call.
#[derive(Clone, Copy, PartialEq, Eq)]
pub enum Mode {
    Normal,
    Fault,
    Halted,
}

// The whole machine but for its memory, which is lent. Laid out by what changes together.
#[derive(Clone, Copy)]
pub struct Machine {
    pub n: u8,
    pub m: u8,
    pub registers: [Registers; 8],
    pub mailboxes: [Mailbox; 8],
    pub inboxes: [Option<Message>; 8],
    pub records: [PageRecord; 64],
    pub transactions: [Transaction; 16],
    pub current: VmId,
    pub mode: Mode,
}

// What the access check says of an address.
#[derive(Clone, Copy, PartialEq, Eq)]
pub enum Access {
    Allowed,
    Outside,
    NoAccess,
    OwnMailbox,
}

// What an entry answers, apart from decoding and encoding; `specs/Answer.antt` has the numbers.
#[derive(Clone, Copy, PartialEq, Eq)]
pub enum Answer {
    Done,
    WrongMemory,
    Unsound,
    Stopped,
    BrokenImage,
}

// The number of an answer.
impl From<Answer> for u32 {
    ghost from_gives = { λ answer number. number ≡ answer_number answer };

    #[tactic(auto, unfolding(crate::specs::Answer::answer_number))]
    fn from(answer: Answer) -> u32 {
        match answer {
            Answer::Done => 0,
            Answer::WrongMemory => 1,
            Answer::Unsound => 2,
            Answer::Stopped => 3,
            Answer::BrokenImage => 4,
        }
    }
}

// What a step and a call give back.
#[derive(Clone, Copy)]
pub struct Stepped {
    pub answer: Answer,
    pub machine: Machine,
}

// What a run gives back: also the number of steps taken.
#[derive(Clone, Copy)]
pub struct Ran {
    pub answer: Answer,
    pub machine: Machine,
    pub count: u32,
}

// A call that a run came to: who made it, and its R0 before.
#[derive(Clone, Copy)]
pub struct MadeCall {
    pub caller: VmId,
    pub r0: u32,
}

// What a run up to the next call gives back: also that call, if it came to one.
#[derive(Clone, Copy)]
pub struct RanToCall {
    pub answer: Answer,
    pub machine: Machine,
    pub count: u32,
    pub call: Option<MadeCall>,
}

// What loading an image gives back: also the image's budget, and where the bad record of a broken one starts.
#[derive(Clone, Copy)]
pub struct Loaded {
    pub answer: Answer,
    pub machine: Machine,
    pub budget: u32,
    pub offset: usize,
}
