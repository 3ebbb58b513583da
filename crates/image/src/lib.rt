// Images: a record cut out of the bytes, what it says, what it may say after those before it, and the machine and the memory
// that a good image means. `specs/` has the meaning, a file for each step; a function means what the definition says that
// its contract names.
//
// An image is read twice: `judge` reads all of it and touches no memory, and only then does `lay` write words.

#![tactic(auto)]

mod bytes;
mod contents;
mod drafts;
mod judging;
mod laying;
mod pieces;

ghost use Rattle.std.specs.Prelude.{◌≡◌};
ghost use Rattle.model.specs.State.{with_mode};
ghost use Rattle.model.specs.Blank.{blank};
ghost use Rattle.image.specs.Loading.{left_by_load, load_of};

pub use judging::judge;
use model::{
    Answer, Loaded, Machine, Mailbox, Mode, PageId, PageRecord, Registers, Transaction, VmId, VmSet,
};

// The kinds of an image's records.
const COUNTS: u16 = 1;

const DESCRIBED: u16 = 2;

const OWNED: u16 = 3;

const WORDS: u16 = 4;

const BUDGET: u16 = 5;

// A whole record: its kind, and where its payload begins and how many bytes that has.
#[derive(Clone, Copy)]
pub struct Record {
    pub kind: u16,
    pub payload: usize,
    pub size: usize,
}

// What a record says, its numbers as wide as the image has them.
#[derive(Clone, Copy)]
pub enum Content {
    Counts {
        n: u16,
        m: u16,
    },
    Described {
        guest: u16,
        tx: u16,
        rx: u16,
        pc: u32,
    },
    Owned {
        page: u16,
        owner: u16,
    },
    Words {
        address: u32,
        count: usize,
    },
    Budget {
        steps: u32,
    },
}

// What has been read so far: the machine, the guests that are described, and the budget, once there was one.
#[derive(Clone, Copy)]
pub struct Draft {
    pub machine: Machine,
    pub described: VmSet,
    pub budget: Option<u32>,
}

// What a good image means: its machine and its budget. (Its words are laid into memory.)
#[derive(Clone, Copy)]
pub struct Image {
    pub machine: Machine,
    pub budget: u32,
}

// A broken image: where its first bad record starts.
#[derive(Clone, Copy, PartialEq, Eq)]
pub struct Broken {
    pub offset: usize,
}

// A machine with no guest and no page, and every place blank, in this mode.
#[tactic(auto, unfolding(model::specs::Blank::blank, model::specs::Blank::blank_registers, model::specs::Row::free_row))]
fn empty_machine(mode: Mode) -> Machine
    ensures { result ≡ with_mode blank mode }
{
    let nowhere = Mailbox {
        tx: PageId(0),
        rx: PageId(0),
    };
    let file = Registers {
        r: [0; 8],
        pc: 0,
        equal: false,
    };
    let spare = PageRecord {
        owner: None,
        access: VmSet(0),
        exclusive: false,
    };
    let free = Transaction {
        deal: None,
        pages: [PageId(0); 8],
    };
    Machine {
        n: 0,
        m: 0,
        registers: [file; 8],
        mailboxes: [nowhere; 8],
        inboxes: [None; 8],
        records: [spare; 64],
        transactions: [free; 16],
        current: VmId(0),
        mode,
    }
}

// What a refused load gives back: the blank machine and no budget.
#[tactic(auto, unfolding(model::specs::Blank::blank))]
fn refused(answer: Answer, offset: usize) -> Loaded
    ensures { result ≡ record { answer = answer; machine = blank; budget = 0; offset = offset } }
{
    Loaded {
        answer,
        machine: empty_machine(Mode::Halted),
        budget: 0,
        offset,
    }
}

// Judges the image, then the length of the memory, and only then writes: the machine that the image means, and its words with
// zeros around them.
pub fn load(bytes: &[u8], mem: &mut [u32]) -> Loaded
    ensures { left_by_load result mem.new ≡ load_of bytes.now mem.old }
{
    let Image { machine, budget } = match judging::judge(bytes) {
        Ok(image) => image,
        Err(Broken { offset }) => return refused(Answer::BrokenImage, offset),
    };
    if mem.len() != 1024 * (machine.m as usize) {
        return refused(Answer::WrongMemory, 0);
    }
    laying::lay(bytes, mem);
    Loaded {
        answer: Answer::Done,
        machine,
        budget,
        offset: 0,
    }
}
