// The access check: one for fetch, load and store.

ghost use Rattle.std.specs.Prelude.{◌≡◌, ◌*◌, ◌≤◌};
ghost use Rattle.model.specs.Constants.{PAGE, PAGES};
ghost use Rattle.exec.specs.Maps.{may_reach};

// Whether an address lies inside a memory of so many words, and then whether the bit of its page is set.
pub fn may_reach(map: u64, words: usize, x: u32) -> bool
    requires { words ≤ PAGE * PAGES }
    ensures { result ≡ may_reach map words x }
{
    (x as usize) < words && (map >> (x / 1024)) % 2 == 1
}
