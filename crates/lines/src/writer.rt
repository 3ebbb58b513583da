// A buffer with a place in it, where text is written: words, digits, the word of a mode. Each method asks for room and no
// more, and takes no more than that.

ghost use Rattle.std.specs.Prelude.{◌≡◌, [], ◌∷◌, ◌++◌, ◌+◌, ◌≤◌, ◌<◌, length};
ghost use Rattle.lines.specs.Wrote.{Wrote};
ghost use Rattle.lines.specs.Text.{digits, decimal, hex8, mode_word, newline};

use crate::numbers::{glyph, places};
use model::Mode;

// What is before `at` is written.
#[derive(Drop)]
pub struct Writer<'a> {
    pub out: &'a mut [u8],
    pub at: usize,
}

impl<'a> Writer<'a> {
    // The text, byte by byte.
    pub fn text(&mut self, text: &[u8])
        requires { self.old.at + length text.now ≤ length self.old.out.now }
        ensures { Wrote self.old text.now self.new }
    {
        let end = self.at + text.len();
        self.out[self.at..end].copy_from_slice(text);
        self.at = end;
    }

    // The last so many digits in a base, from the last one to the first.
    fn digits(&mut self, base: usize, count: usize, n: usize)
        requires base_nonzero { (0 < base) × (base ≤ 16) }
        requires count_in_bounds { self.old.at + count ≤ length self.old.out.now }
        ensures { Wrote self.old (digits base count n) self.new }
    {
        let mut rest = n;
        for i in (0..count).rev() {
            self.out[self.at + i] = glyph(rest % base);
            rest /= base;
        }
        self.at += count;
    }

    // The fewest decimal digits, and a byte behind them.
    pub fn decimal(&mut self, n: usize, behind: u8)
        requires { self.old.at + length (decimal n) + 1 ≤ length self.old.out.now }
        ensures written { Wrote self.old (decimal n ++ (behind ∷ [])) self.new }
        ensures place { self.new.at ≡ self.old.at + length (decimal n) + 1 }
    {
        self.digits(10, places(n), n);
        self.text(&[behind]);
    }

    // Eight hexadecimal digits, and a byte behind them.
    pub fn hex(&mut self, n: u32, behind: u8)
        requires { self.old.at + 9 ≤ length self.old.out.now }
        ensures written { Wrote self.old (hex8 n ++ (behind ∷ [])) self.new }
        ensures place { self.new.at ≡ self.old.at + 9 }
    {
        self.digits(16, 8, n as usize);
        self.text(&[behind]);
    }

    // The word of a mode, at most six letters, and the end of the line.
    #[tactic(auto, unfolding(crate::specs::Text::mode_word))]
    pub fn mode(&mut self, mode: Mode)
        requires { self.old.at + 7 ≤ length self.old.out.now }
        ensures written { Wrote self.old (mode_word mode ++ newline) self.new }
        ensures place { self.new.at ≤ self.old.at + 7 }
    {
        match mode {
            Mode::Normal => self.text(b"normal\n"),
            Mode::Fault => self.text(b"fault\n"),
            Mode::Halted => self.text(b"halted\n"),
        }
    }
}
