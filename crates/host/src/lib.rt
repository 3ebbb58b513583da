// The library for hosts: one function, which loads an image and runs it. `crates/host_c` exports it under its plain name for
// hosts that are not written in Rattle.

#![tactic(auto)]

ghost use Rattle.std.specs.Prelude.{◌≡◌};
ghost use Rattle.host.specs.Hosted.{hosted, hosted_of};

use model::Answer;

// Loads an image into the memory, runs it for at most `budget` steps, and gives back how many were taken. An image that is broken,
// or that the memory does not fit, is 0 steps, and nothing is written. The image's own budget is not looked at.
pub fn creamtally_run(image: &[u8], budget: u32, mem: &mut [u32]) -> u32
    ensures { hosted result mem.new ≡ hosted_of image.now budget mem.old }
{
    let loaded = creamtally::load(image, &mut *mem);
    if loaded.answer != Answer::Done {
        return 0;
    }
    creamtally::run(loaded.machine, mem, budget).count
}
