// The calls Yield and Run where they cost least: the caller's registers are changed where they stand, and what is left to be
// done with the machine is said in a word.

ghost use Rattle.std.specs.Prelude.{◌≡◌};
ghost use Rattle.exec.specs.Switch.{switched, refused_with, yield_switch, run_switch, switch_of};
ghost use Rattle.parts.specs.Refusal.{code_of};

use model::VmId;
use parts::{Refusal, codes, numbers};

// What a call leaves to be done once its caller's registers are as they should be.
#[derive(Clone, Copy)]
pub enum Switch {
    Other,
    Stay,
    Wake,
    To(VmId),
}

// An error: R0 and R2, and nothing else.
#[tactic(auto, unfolding(crate::specs::Switch::refused_with))]
fn refused(r: &mut [u32; 8], refusal: Refusal) -> Switch
    ensures { switched result r.new ≡ refused_with r.old (code_of refusal) }
{
    r[0] = codes::ERROR;
    r[2] = refusal.into();
    Switch::Stay
}

// Yield: success, and guest 0 is woken if a secondary calls.
#[tactic(auto, unfolding(crate::specs::Switch::yield_switch))]
fn yielded(r: &mut [u32; 8], caller: VmId) -> Switch
    ensures { switched result r.new ≡ yield_switch r.old caller }
{
    r[0] = codes::SUCCESS;
    if parts::is_primary(caller) {
        Switch::Stay
    } else {
        Switch::Wake
    }
}

// Run: the guest in R1, if the tests pass.
#[tactic(auto, unfolding(crate::specs::Switch::run_switch, isa::proofs::Tests::joined, parts::proofs::Answers::answering))]
fn to_run(r: &mut [u32; 8], caller: VmId, n: u8) -> Switch
    ensures { switched result r.new ≡ run_switch r.old caller n }
{
    match numbers::next_guest(caller, r[1], n) {
        Ok(g) => Switch::To(g),
        Err(refusal) => refused(r, refusal),
    }
}

// Yield and Run; every other call is left alone.
#[tactic(auto, unfolding(crate::specs::Switch::switch_of))]
pub fn switched(r: &mut [u32; 8], caller: VmId, n: u8) -> Switch
    ensures { switched result r.new ≡ switch_of r.old caller n }
{
    match r[0] {
        codes::YIELD => yielded(r, caller),
        codes::RUN => to_run(r, caller, n),
        _ => Switch::Other,
    }
}
