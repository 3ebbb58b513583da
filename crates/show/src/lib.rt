// What the bench prints of an image, for any bytes: the refusals in their order, or the run's lines. What is written is text
// of `lines`; how far the run goes and what it leaves is `creamtally`'s run.

#![tactic(auto)]

mod course;
mod input;
mod run;

ghost use Rattle.std.specs.Prelude.{◌≡◌, Ok, IfOk};
ghost use Rattle.show.specs.Course.{course_of, image_run};
ghost use Rattle.show.specs.Ended.{ending_of};

use course::Refusal;
use image::Broken;
pub use input::read_full;
use run::Ending;
use std::io;
use std::io::{Print, Stdout};

// Refuses an image: what is too large, itself or its machine's memory; or what is broken, by the offset of its bad record.
fn refuse(to: Stdout, refusal: Refusal) -> io::Result<()> {
    let mut out = [0u8; 64];
    let end = match refusal {
        Refusal::TooLarge => lines::put_refused(&mut out, 0, 1),
        Refusal::Broken(Broken { offset }) => lines::put_broken(&mut out, 0, offset),
    };
    to.write_all(&out[..end])
}

// Loads an image whose machine has so many pages, and runs it. It fails only where a write does.
fn perform(to: Stdout, bytes: &[u8], m: u8) -> io::Result<Ending>
    requires { course_of bytes.now ≡ Ok m }
    ensures { IfOk result (λ r. r ≡ ending_of (image_run bytes.now)) }
{
    let mut mem = [0; 16384];
    let mem = &mut mem[..1024 * (m as usize)];
    let loaded = creamtally::load(bytes, mem);
    run::play(to, loaded.machine, mem, loaded.budget)
}

// The whole bench: prints to standard output what it has to say of an image.
pub fn bench(to: Stdout, bytes: &[u8]) -> io::Result<()> {
    match course::chosen(bytes) {
        Ok(m) => perform(to, bytes, m).map(|_| ()),
        Err(refusal) => refuse(to, refusal),
    }
}
