// The descriptor of a sending, in the caller's TX page: its length, then kind and receiver, then the bases of the pages.

ghost use Rattle.std.specs.Prelude.{◌≡◌, ◌+◌, ◌%◌, ◌≤◌, is_some, IfSome, get_or, eqb};
ghost use Rattle.isa.specs.Tests.{◌and◌};
ghost use Rattle.model.specs.Constants.{PLACES};
ghost use Rattle.model.specs.Tests.{every, ascending};
ghost use Rattle.model.specs.Row.{kind_number};
ghost use Rattle.model.specs.Sending.{is_base};
ghost use Rattle.offers.specs.Descriptor.{Words, base_in, pages_in, well_formed, Read};

use model::{Kind, Machine, PageId, VmId};
use parts::numbers;

// What a good descriptor asks for.
#[derive(Clone, Copy)]
pub struct Proposal {
    pub receiver: VmId,
    pub count: u8,
    pub pages: [PageId; 8],
}

// Word 0 is the length, and the kind this call's.
#[tactic(auto, unfolding(isa::proofs::Tests::joined))]
fn header_fits(kind: Kind, length: u32, tx: &[u32]) -> bool
    requires { Words tx.now }
    ensures { result ≡ (eqb (get_or tx.now 0 0) length and eqb (get_or tx.now 1 0 % 65536) (kind_number kind)) }
{
    tx[0] == length && tx[1] % 65536 == u32::from(kind)
}

// The pages at the first count bases, if each is a base.
#[tactic(auto, unfolding(crate::specs::Descriptor::base_in, crate::specs::Descriptor::pages_in))]
fn pages_listed(m: u8, count: u8, tx: &[u32]) -> Option<[PageId; 8]>
    requires { (count ≤ PLACES) × Words tx.now }
    ensures based { is_some result ≡ every count (λ i. is_base m (base_in tx.now i)) }
    ensures listed { IfSome result (λ pages. pages ≡ pages_in count tx.now) }
{
    let mut pages = [PageId(0); 8];
    for i in 0..count as usize {
        pages[i] = numbers::page_at_base(tx[2 + i], m)?;
    }
    Some(pages)
}

// Each of the first count bases is below the next.
fn bases_ascend(count: u8, tx: &[u32]) -> bool
    requires { (count ≤ PLACES) × Words tx.now }
    ensures { result ≡ ascending count (base_in tx.now) }
{
    tx[2..2 + count as usize].is_sorted_by(|a, b| a < b)
}

// What the descriptor of this length asks for, if it is a good one for this call.
pub fn proposal_in(kind: Kind, machine: &Machine, length: u32, tx: &[u32]) -> Option<Proposal>
    requires { (3 ≤ length) × (length ≤ 10) × Words tx.now }
    ensures good { is_some result ≡ well_formed kind machine.now length tx.now }
    ensures read { IfSome result (Read length tx.now) }
{
    let receiver = numbers::vm_of(tx[1] / 65536, machine.n)?;
    let count = (length - 2) as u8;
    let pages = pages_listed(machine.m, count, tx)?;
    if header_fits(kind, length, tx) && receiver != machine.current && bases_ascend(count, tx) {
        Some(Proposal {
            receiver,
            count,
            pages,
        })
    } else {
        None
    }
}
