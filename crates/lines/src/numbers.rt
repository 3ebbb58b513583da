// The digits of numbers: the code of one, and how many a number takes.

ghost use Rattle.std.specs.Prelude.{◌≡◌, ◌<◌};
ghost use Rattle.lines.specs.Text.{glyph_of, places_of};

// The code of a digit.
#[tactic(auto, unfolding(crate::specs::Text::glyph_of))]
pub fn glyph(d: usize) -> u8
    requires { d < 16 }
    ensures { result ≡ glyph_of d }
{
    if d < 10 {
        b'0' + d as u8
    } else {
        b'a' + (d - 10) as u8
    }
}

// How many decimal digits the number takes.
pub fn places(n: usize) -> usize
    ensures { result ≡ places_of n }
{
    n.checked_ilog10().unwrap_or(0) as usize + 1
}
