// Numbers and words of an image: two and four bytes, the lowest first.

ghost use Rattle.std.specs.Prelude.{◌≡◌, ◌+◌, ◌≤◌, length};
ghost use Rattle.image.specs.Bytes.{number_at, word_at};

// The number at an offset.
#[tactic(auto, unfolding(crate::specs::Bytes::byte_at, crate::specs::Bytes::number_at))]
pub fn number(bytes: &[u8], at: usize) -> u16
    requires { at + 2 ≤ length bytes.now }
    ensures { result ≡ number_at bytes.now at }
{
    u16::from_le_bytes([bytes[at], bytes[at + 1]])
}

// The word at an offset.
#[tactic(auto, unfolding(crate::specs::Bytes::byte_at, crate::specs::Bytes::number_at, crate::specs::Bytes::word_at))]
pub fn word(bytes: &[u8], at: usize) -> u32
    requires { at + 4 ≤ length bytes.now }
    ensures { result ≡ word_at bytes.now at }
{
    u32::from_le_bytes([bytes[at], bytes[at + 1], bytes[at + 2], bytes[at + 3]])
}
