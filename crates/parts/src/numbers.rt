// A word becomes the number of a guest or of a page here and nowhere else, by the test of its range. (A handle's word is
// tested where its transaction is looked up.)

ghost use Rattle.std.specs.Prelude.{◌≡◌, IfOk, leb, ltb};
ghost use Rattle.isa.specs.Tests.{◌and◌};
ghost use Rattle.model.specs.Constants.{DENIED, INVALID};
ghost use Rattle.model.specs.State.{vm, is_primary};
ghost use Rattle.model.specs.Reply.{passes, need};
ghost use Rattle.parts.specs.Numbers.{vm_of, page_at_base};
ghost use Rattle.parts.specs.Refusal.{verdict_of};

use crate::Refusal;
use model::{PageId, VmId};

// The guest of this number, of n, if there is one.
pub fn vm_of(w: u32, n: u8) -> Option<VmId>
    ensures { result ≡ vm_of w n }
{
    if w < n as u32 {
        Some(VmId(w as u8))
    } else {
        None
    }
}

// The guest that the call Run names, if its tests pass, in their order: guest 0 asks, and the word names another guest.
#[tactic(auto, using(crate::proofs::Named::vm_found, crate::proofs::Named::no_vm), unfolding(crate::proofs::Answers::answering, isa::proofs::Tests::joined, model::specs::State::is_primary, model::specs::State::same_vm))]
pub fn next_guest(caller: VmId, word: u32, n: u8) -> Result<VmId, Refusal>
    ensures verdict { verdict_of result ≡ need (is_primary caller) DENIED (need (leb 1 word and ltb word n) INVALID passes) }
    ensures named { IfOk result (λ g. g ≡ vm word) }
{
    if !crate::is_primary(caller) {
        return Err(Refusal::Denied);
    }
    let g = vm_of(word, n).ok_or(Refusal::Invalid)?;
    if crate::is_primary(g) {
        return Err(Refusal::Invalid);
    }
    Ok(g)
}

// The page that starts at this address, of m, if one does.
#[tactic(auto, unfolding(model::specs::Sending::is_base, crate::specs::Numbers::page_at_base))]
pub fn page_at_base(x: u32, m: u8) -> Option<PageId>
    ensures { result ≡ page_at_base x m }
{
    let p = x / 1024;
    if (x % 1024 == 0) & (p < m as u32) {
        Some(PageId(p as u8))
    } else {
        None
    }
}
