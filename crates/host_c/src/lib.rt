// The library for hosts that are not written in Rattle: one function under its plain name. Link the archive that
// `tools/native host` makes, and declare the function there; an image is a pointer and a length in bytes, lent memory a pointer
// and a length in words.

#![tactic(auto)]

ghost use Rattle.std.specs.Prelude.{◌≡◌};
ghost use Rattle.host.specs.Hosted.{hosted, hosted_of};

// Loads an image into the memory, runs it for at most `budget` steps, and gives back how many were taken. An image that is broken,
// or that the memory does not fit, is 0 steps, and nothing is written. The image's own budget is not looked at.
#[unsafe(no_mangle)]
pub extern "C" fn creamtally_run(image: &[u8], budget: u32, mem: &mut [u32]) -> u32
    ensures { hosted result mem.new ≡ hosted_of image.now budget mem.old }
{
    host::creamtally_run(image, budget, mem)
}
