// Words from one place of memory to another: out into a local array, and from there into the part that is lent.

ghost use Rattle.std.specs.Prelude.{◌≡◌, ◌++◌, ◌≤◌, length, take, drop};
ghost use Rattle.model.specs.Constants.{PAGE};

// The words, at most a page of them, at the front of an array of their own.
pub fn taken(words: &[u32]) -> [u32; 1024]
    requires { length words.now ≤ PAGE }
    ensures { take (length words.now) result ≡ words.now }
{
    let mut copy = [0; 1024];
    copy[..words.len()].copy_from_slice(words);
    copy
}

// The words over the first ones of a page; the rest of it stays.
pub fn put(page: &mut [u32], words: &[u32])
    requires { length words.now ≤ length page.old }
    ensures { page.new ≡ words.now ++ drop (length words.now) page.old }
{
    page[..words.len()].copy_from_slice(words);
}
