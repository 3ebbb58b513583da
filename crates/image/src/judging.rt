// The whole image, read without touching memory: what load and the bench both go by.

ghost use Rattle.std.specs.Prelude.{◌≡◌};
ghost use Rattle.image.specs.Judging.{at_end, judged_of};

use crate::{Broken, Draft, Image, contents, pieces};

// At the image's end: it is good if the budget was read.
fn at_end(at: usize, draft: Draft) -> Result<Image, Broken>
    ensures { result ≡ at_end at draft }
{
    let budget = draft.budget.ok_or(Broken { offset: at })?;
    Ok(Image {
        machine: draft.machine,
        budget,
    })
}

// Whether the image is good: its machine and its budget, or the offset of the first record that is bad.
#[tactic(auto, using(crate::proofs::Turns::cut_inside, crate::proofs::Turns::judging_goes_on))]
pub fn judge(bytes: &[u8]) -> Result<Image, Broken>
    ensures { result ≡ judged_of bytes.now }
{
    let mut draft = Draft::begun();
    let mut at: usize = 0;
    while at < bytes.len() {
        let bad = Broken { offset: at };
        let whole = pieces::cut_image(bytes, at).ok_or(bad)?;
        let content = contents::content_of(bytes, whole).ok_or(bad)?;
        if !draft.may_stand(at, content) {
            return Err(bad);
        }
        draft.take(content);
        at = whole.payload + whole.size;
    }
    at_end(at, draft)
}
