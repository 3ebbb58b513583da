// What is known of a machine by the tests that come first, so that the later ones can read it: of its counts, and of what
// stands for a guest or a page.

ghost use Rattle.std.specs.Prelude.{◌≡◌, true};
ghost use Rattle.sound.specs.Known.{Counts, Ranges};

use model::Machine;

// A machine whose counts are in range.
#[derive(Clone, Copy)]
pub struct Counted<'a> {
    pub machine: &'a Machine,
    pub ghost counts: { Counts machine.now ≡ true },
}

// A machine in which so is also what stands for a guest or a page, but for the current guest and the messages' senders.
#[derive(Clone, Copy)]
pub struct Ranged<'a> {
    pub machine: &'a Machine,
    pub ghost counts: { Counts machine.now ≡ true },
    pub ghost ranges: { Ranges machine.now ≡ true },
}
