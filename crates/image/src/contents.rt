// What a record says, by its kind and the form of its payload.

ghost use Rattle.std.specs.Prelude.{◌≡◌, ◌+◌, ◌≤◌, length};
ghost use Rattle.image.specs.Contents.{content_of};

use crate::{BUDGET, COUNTS, Content, DESCRIBED, OWNED, Record, WORDS, bytes};

// What the record says, if its payload has its kind's form: of kind 4, an address and one or more whole words.
#[tactic(auto, unfolding(crate::specs::Contents::content_of, crate::specs::Contents::has_form, crate::specs::Contents::has_words, isa::proofs::Tests::joined))]
pub fn content_of(bytes: &[u8], whole: Record) -> Option<Content>
    requires { whole.payload + whole.size ≤ length bytes.now }
    ensures { result ≡ content_of bytes.now whole }
{
    let at = whole.payload;
    match (whole.kind, whole.size) {
        (COUNTS, 4) => Some(Content::Counts {
            n: bytes::number(bytes, at),
            m: bytes::number(bytes, at + 2),
        }),
        (DESCRIBED, 10) => Some(Content::Described {
            guest: bytes::number(bytes, at),
            tx: bytes::number(bytes, at + 2),
            rx: bytes::number(bytes, at + 4),
            pc: bytes::word(bytes, at + 6),
        }),
        (OWNED, 4) => Some(Content::Owned {
            page: bytes::number(bytes, at),
            owner: bytes::number(bytes, at + 2),
        }),
        (WORDS, size) if 8 <= size && size % 4 == 0 => Some(Content::Words {
            address: bytes::word(bytes, at),
            count: size / 4 - 1,
        }),
        (BUDGET, 4) => Some(Content::Budget {
            steps: bytes::word(bytes, at),
        }),
        _ => None,
    }
}
