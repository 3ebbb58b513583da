// The inner loop: instructions of one guest until something stops it.

ghost use Rattle.std.specs.Prelude.{◌≡◌, ◌*◌, ◌≤◌, length};
ghost use Rattle.model.specs.Constants.{PAGE, PAGES};
ghost use Rattle.exec.specs.Maps.{by_maps};
ghost use Rattle.exec.specs.Turn.{turn};
ghost use Rattle.exec.specs.Burst.{burst, burst_of};

use crate::instruction;
use crate::instruction::Stop;
use crate::rights::Maps;
use model::Registers;

// What a burst leaves beside the registers and the memory: what is left of the budget, and how the last instruction ended.
#[derive(Clone, Copy)]
pub struct Ended {
    pub left: u32,
    pub stop: Stop,
}

// Instructions until a call, a halt, a fault or the end of the budget. Each of them counts; a call is left to be made.
pub fn burst(file: &mut Registers, maps: Maps, budget: u32, mem: &mut [u32]) -> Ended
    requires { length mem.old ≤ PAGE * PAGES }
    ensures { burst (turn result.stop file.new mem.new) result.left
        ≡ burst_of (by_maps maps.loads maps.stores) budget file.old mem.old }
{
    for left in (0..budget).rev() {
        let stop = instruction::one(file, maps, mem);
        if !matches!(stop, Stop::Moved) {
            return Ended { left, stop };
        }
    }
    Ended {
        left: 0,
        stop: Stop::Moved,
    }
}
