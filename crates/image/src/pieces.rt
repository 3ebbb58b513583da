// The cutter: one record out of the bytes.

ghost use Rattle.std.specs.Prelude.{◌≡◌, ◌≤◌, length};
ghost use Rattle.image.specs.Pieces.{image_kinds, cut};

use crate::{BUDGET, COUNTS, DESCRIBED, OWNED, Record, WORDS, bytes};

// The record at an offset, if it is whole and of one of the kinds.
#[tactic(auto, unfolding(crate::specs::Pieces::cut, crate::specs::Pieces::record_from, crate::specs::Pieces::end_of, isa::proofs::Tests::joined))]
fn cut(kinds: &[u16], bytes: &[u8], at: usize) -> Option<Record>
    requires { at ≤ length bytes.now }
    ensures { result ≡ cut kinds.now bytes.now at }
{
    let left = bytes.len() - at;
    if left < 4 {
        return None;
    }
    let size = bytes::number(bytes, at) as usize;
    if left - 4 < size {
        return None;
    }
    let kind = bytes::number(bytes, at + 2);
    if !kinds.contains(&kind) {
        return None;
    }
    Some(Record {
        kind,
        payload: at + 4,
        size,
    })
}

// The same of an image, whose kinds are 1 to 5.
pub fn cut_image(bytes: &[u8], at: usize) -> Option<Record>
    requires { at ≤ length bytes.now }
    ensures { result ≡ cut image_kinds bytes.now at }
{
    cut(&[COUNTS, DESCRIBED, OWNED, WORDS, BUDGET], bytes, at)
}
