// The words of an image that was judged good, laid into the memory. Words that lie outside would be passed over; a good image
// has none.

ghost use Rattle.std.specs.Prelude.{◌≡◌, ◌+◌, ◌*◌, ◌≤◌, length, replicate};
ghost use Rattle.image.specs.Laying.{words_laid, record_laid, memory_of};

use crate::{Content, Record, bytes, contents, pieces};

// Every word becomes 0.
fn clear(mem: &mut [u32])
    ensures { mem.new ≡ replicate (length mem.old) 0 }
{
    mem.fill(0);
}

// So many words that stand in the bytes from an offset on, from an address on.
#[tactic(auto, unfolding(crate::specs::Laying::words_laid, model::specs::Tests::set_each))]
fn lay_words(bytes: &[u8], from: usize, count: usize, address: u32, mem: &mut [u32])
    requires { from + 4 * count ≤ length bytes.now }
    ensures { mem.new ≡ words_laid bytes.now from count address mem.old }
{
    for i in 0..count {
        let place = address as usize + i;
        if place < mem.len() {
            mem[place] = bytes::word(bytes, from + 4 * i);
        }
    }
}

// Those of one record, if it has any.
#[tactic(auto, unfolding(crate::specs::Laying::record_laid, crate::specs::Laying::content_laid, crate::specs::Contents::content_of, crate::specs::Contents::has_words, isa::proofs::Tests::joined))]
fn lay_record(bytes: &[u8], whole: Record, mem: &mut [u32])
    requires { whole.payload + whole.size ≤ length bytes.now }
    ensures { mem.new ≡ record_laid bytes.now whole mem.old }
{
    let Some(Content::Words { address, count }) = contents::content_of(bytes, whole) else {
        return;
    };
    lay_words(bytes, whole.payload + 4, count, address, mem);
}

// Those of every record in turn, on zeros.
#[tactic(auto, using(crate::proofs::Turns::cut_inside, crate::proofs::Turns::laying_goes_on))]
pub fn lay(bytes: &[u8], mem: &mut [u32])
    ensures { mem.new ≡ memory_of bytes.now (length mem.old) }
{
    clear(&mut *mem);
    let mut at: usize = 0;
    while let Some(whole) = pieces::cut_image(bytes, at) {
        lay_record(bytes, whole, &mut *mem);
        at = whole.payload + whole.size;
    }
}
