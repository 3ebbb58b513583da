// The public face: what a host calls. Every entry takes any machine and any memory, tests them itself, and answers as the
// model's definition of the same name says; none has a `requires`.

#![tactic(auto)]

mod modes;

ghost use Rattle.std.specs.Prelude.{◌≡◌};
ghost use Rattle.model.specs.Answer.{answer_number};
ghost use Rattle.model.specs.Entries.{check_of, step_of, run_of, call_of, message_of, message_place};
ghost use Rattle.model.specs.ToCall.{run_to_call_of};
ghost use Rattle.image.specs.Loading.{left_by_load, load_of};
ghost use Rattle.creamtally.specs.Left.{left, left_by_run, left_by_leg, walk_of};
ghost use Rattle.creamtally.specs.Part.{BeginsAt};

use model::{Answer, Loaded, Machine, Ran, RanToCall, Stepped, VmId};
use parts::inboxes;
use runs::Advanced;

// Whether the lent memory fits the machine and the machine is sound: answers 0, 1 and 2.
pub fn check(machine: Machine, mem: &[u32]) -> Answer
    ensures { result ≡ check_of machine mem.now }
{
    if mem.len() != 1024 * (machine.m as usize) {
        return Answer::WrongMemory;
    }
    // Behind the first test, so that a machine whose memory does not fit is not copied.
    let machine = machine;
    if !sound::is_sound(&machine) {
        return Answer::Unsound;
    }
    Answer::Done
}

// The number of an answer.
#[tactic(auto, unfolding(model::specs::Answer::answer_number))]
pub fn answer_number(answer: Answer) -> u32
    ensures { result ≡ answer_number answer }
{
    answer.into()
}

// The current guest's next instruction: a run of one step, but that a machine that has stopped is answered by 3.
pub fn step(machine: Machine, mem: &mut [u32]) -> Stepped
    ensures { left result mem.new ≡ step_of machine mem.old }
{
    let mode = machine.mode;
    let walked = walk(machine, mem, 1, false);
    Stepped {
        answer: modes::then_mode(walked.answer, mode),
        machine: walked.machine,
    }
}

// Steps while the budget lasts and the mode is normal, and their number.
pub fn run(machine: Machine, mem: &mut [u32], budget: u32) -> Ran
    ensures { left_by_run result mem.new ≡ run_of machine mem.old budget }
{
    let walked = walk(machine, mem, budget, false);
    Ran {
        answer: walked.answer,
        machine: walked.machine,
        count: walked.count,
    }
}

// The same, but no step after a call: also the call that it came to, if it came to one.
pub fn run_to_call(machine: Machine, mem: &mut [u32], budget: u32) -> RanToCall
    ensures { left_by_leg result mem.new ≡ run_to_call_of machine mem.old budget }
{
    walk(machine, mem, budget, true)
}

// A run of either kind: up to and including the next call if only that is wanted. Refused, or stopped already, it takes
// no step.
fn walk(machine: Machine, mem: &mut [u32], budget: u32, to_call: bool) -> RanToCall
    ensures { left_by_leg result mem.new ≡ walk_of to_call machine mem.old budget }
{
    let answer = check(machine, &mem[..]);
    if modes::then_mode(answer, machine.mode) != Answer::Done {
        return RanToCall {
            answer,
            machine,
            count: 0,
            call: None,
        };
    }
    let Advanced {
        machine,
        left,
        call,
    } = runs::advance(machine, mem, budget, to_call);
    RanToCall {
        answer,
        machine,
        count: budget - left,
        call,
    }
}

// The effect of the current guest's hvc, without moving its pc. A refusal gives the machine back and leaves the memory.
pub fn call(machine: Machine, mem: &mut [u32]) -> Stepped
    ensures { left result mem.new ≡ call_of machine mem.old }
{
    let answer = modes::then_mode(check(machine, &mem[..]), machine.mode);
    let refused = answer != Answer::Done;
    if refused {
        return Stepped { answer, machine };
    }
    Stepped {
        answer,
        machine: calls::call(machine, mem),
    }
}

// The words that wait for guest g in its RX page; none if nothing waits, or if g is no guest, or if the check refuses.
pub fn message<'a>(machine: Machine, mem: &'a [u32], g: VmId) -> &'a [u32]
    ensures { (result.now ≡ message_of machine mem.now g) × BeginsAt result mem.entry (message_place machine mem.now g) }
{
    let refused = check(machine, mem) != Answer::Done;
    if refused {
        return &mem[..0];
    }
    if g.0 >= machine.n {
        return &mem[..0];
    }
    let words = machine.inboxes[g.0 as usize].map_or(0, |message| message.length) as usize;
    let base = 1024 * (inboxes::mailbox_at(&machine.mailboxes, g).rx.0 as usize);
    let end = base + words;
    &mem[base..end]
}

// The machine and the budget that an image means, with its words laid into the lent memory: answers 0, 1 and 4. Whether the image is
// broken is told before whether the memory fits; a refusal gives the blank machine and leaves the memory.
pub fn load(bytes: &[u8], mem: &mut [u32]) -> Loaded
    ensures { left_by_load result mem.new ≡ load_of bytes.now mem.old }
{
    image::load(bytes, mem)
}
