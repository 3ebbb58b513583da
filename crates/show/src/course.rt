// What becomes of an image.

ghost use Rattle.std.specs.Prelude.{◌≡◌};
ghost use Rattle.show.specs.Course.{course_of};

use image::{Broken, Image};

// Why an image is not run: it is too large, or its machine's memory is; or it is broken.
#[derive(Clone, Copy, PartialEq, Eq)]
pub enum Refusal {
    TooLarge,
    Broken(Broken),
}

// A broken image is refused as it is.
impl From<Broken> for Refusal {
    ghost use Rattle.show.specs.declared.course.Refusal.{Refusal};

    ghost from_gives = { λ broken refusal. refusal ≡ Refusal.Broken broken };

    fn from(broken: Broken) -> Refusal {
        Refusal::Broken(broken)
    }
}

// The number of pages of the image's machine, if it is run; or the refusal, in their order: by size, by the first bad record, by
// the number of pages.
#[tactic(auto, unfolding(crate::specs::Course::course_of, crate::specs::Course::judged_course))]
pub fn chosen(bytes: &[u8]) -> Result<u8, Refusal>
    ensures { result ≡ course_of bytes.now }
{
    if 65536 < bytes.len() {
        return Err(Refusal::TooLarge);
    }
    let Image { machine, .. } = image::judge(bytes)?;
    if 16 < machine.m {
        return Err(Refusal::TooLarge);
    }
    Ok(machine.m)
}
