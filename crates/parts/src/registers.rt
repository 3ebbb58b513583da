// The guests' register files: a register read, and one written.

ghost use Rattle.std.specs.Prelude.{◌≡◌, ◌<◌};
ghost use Rattle.model.specs.Constants.{GUESTS};
ghost use Rattle.model.specs.State.{registers_at, register, written};

use model::{Registers, VmId};

// Register i of guest g.
#[tactic(auto, unfolding(model::specs::State::register, model::specs::State::registers_at))]
pub fn register(files: &[Registers; 8], g: VmId, i: usize) -> u32
    requires { (g.0 < GUESTS) × (i < 8) }
    ensures { result ≡ register (registers_at files.now g) i }
{
    files[g.0 as usize].r[i]
}

// v written to register i of guest g.
#[tactic(auto, unfolding(model::specs::State::registers_at, model::specs::State::written))]
pub fn write(files: &mut [Registers; 8], g: VmId, i: usize, v: u32)
    requires { (g.0 < GUESTS) × (i < 8) }
    ensures { files.new ≡ written files.old g i v }
{
    files[g.0 as usize].r[i] = v;
}
