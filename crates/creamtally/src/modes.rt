// What the mode has to say to an entry's answer.

ghost use Rattle.std.specs.Prelude.{◌≡◌};
ghost use Rattle.model.specs.Entries.{then_mode};

use model::{Answer, Mode};

// What step and call answer, from the check's answer and the mode: 3 only where the check answers 0.
pub fn then_mode(answer: Answer, mode: Mode) -> Answer
    ensures { result ≡ then_mode answer mode }
{
    let refused = answer != Answer::Done;
    if refused {
        return answer;
    }
    if mode == Mode::Normal {
        return Answer::Done;
    }
    Answer::Stopped
}
