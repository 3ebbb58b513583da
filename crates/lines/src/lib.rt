// The lines of a bench as text, put into a lent buffer: a call, the end, a refusal. `specs/Text.antt` says what each line is.
//
// Each function writes at an offset and gives back the offset behind what it wrote. All that it asks for is room, and it takes
// no more than that.

#![tactic(auto)]

mod numbers;
mod writer;

ghost use Rattle.std.specs.Prelude.{◌+◌, ◌≤◌, length};
ghost use Rattle.lines.specs.Laid.{Laid, LINE, END, REFUSED, BROKEN};
ghost use Rattle.lines.specs.Text.{line_text, end_text, refused_text, broken_text};

use model::{Mode, VmId};
use writer::Writer;

// A call: its step, the caller, and of the caller's registers R0 before, R0 after and R2 after.
pub fn put_line(
    out: &mut [u8],
    at: usize,
    step: u32,
    caller: VmId,
    before: u32,
    after: u32,
    second: u32,
) -> usize
    requires { at + LINE ≤ length out.old }
    ensures laid { Laid out.old at
        (line_text (record { step = step; caller = caller; r0_before = before; r0_after = after; r2_after = second }))
        out.new result }
    ensures upper_bound { result ≤ at + LINE }
{
    let mut writer = Writer { out, at };
    writer.decimal(step as usize, b' ');
    writer.decimal(caller.0 as usize, b' ');
    writer.hex(before, b' ');
    writer.hex(after, b' ');
    writer.hex(second, b'\n');
    writer.at
}

// The end of a run: its steps, and the mode.
pub fn put_end(out: &mut [u8], at: usize, steps: u32, mode: Mode) -> usize
    requires { at + END ≤ length out.old }
    ensures laid { Laid out.old at (end_text steps mode) out.new result }
    ensures upper_bound { result ≤ at + END }
{
    let mut writer = Writer { out, at };
    writer.text(b"end ");
    writer.decimal(steps as usize, b' ');
    writer.mode(mode);
    writer.at
}

// A refusal: its number.
pub fn put_refused(out: &mut [u8], at: usize, number: u32) -> usize
    requires { at + REFUSED ≤ length out.old }
    ensures laid { Laid out.old at (refused_text number) out.new result }
    ensures upper_bound { result ≤ at + REFUSED }
{
    let mut writer = Writer { out, at };
    writer.text(b"refused ");
    writer.decimal(number as usize, b'\n');
    writer.at
}

// The refusal of a broken image: the offset.
pub fn put_broken(out: &mut [u8], at: usize, offset: usize) -> usize
    requires { at + BROKEN ≤ length out.old }
    ensures laid { Laid out.old at (broken_text offset) out.new result }
    ensures upper_bound { result ≤ at + BROKEN }
{
    let mut writer = Writer { out, at };
    writer.text(b"refused 4 ");
    writer.decimal(offset, b'\n');
    writer.at
}
