// The run of a bench, from call to call, and its text in pieces as large as the buffer.

ghost use Rattle.std.specs.Prelude.{ℕ, ◌+◌, ◌-◌, ◌<◌, ◌≤◌, ◌≡◌, length, IfOk, OnErr};
ghost use Rattle.model.specs.Constants.{GUESTS};
ghost use Rattle.model.specs.State.{state};
ghost use Rattle.model.specs.Entries.{run_of};
ghost use Rattle.model.specs.ToCall.{line_of};
ghost use Rattle.lines.specs.Laid.{Laid, LINE};
ghost use Rattle.lines.specs.Text.{line_text};
ghost use Rattle.show.specs.Ended.{ending_of};
ghost use Rattle.show.specs.Reached.{reached};
ghost use Rattle.show.specs.Told.{PutPiece};

use model::{Machine, MadeCall};
use std::io;
use std::io::{Print, Stdout};

// What a run came to: the number of its steps, and the machine.
#[derive(Clone, Copy)]
pub struct Ending {
    pub steps: u32,
    pub machine: Machine,
}

// A piece of a run's text: where it ends in the buffer, the machine and what is left of the budget behind it, and whether
// more is to come.
#[derive(Clone, Copy)]
pub struct Piece {
    pub end: usize,
    pub machine: Machine,
    pub left: u32,
    pub more: bool,
}

// Puts the line of a call into the buffer, with the caller's registers as the call left them.
#[tactic(auto, unfolding(model::specs::ToCall::line_of, model::specs::State::register, model::specs::State::registers_at))]
fn put_call(out: &mut [u8], at: usize, step: u32, call: MadeCall, after: &Machine) -> usize
    requires { (at + LINE ≤ length out.old) × (call.caller.0 < GUESTS) }
    ensures { Laid out.old at (line_text (line_of step call.caller call.r0 after.now)) out.new result }
{
    let MadeCall { caller, r0 } = call;
    let r = after.registers[caller.0 as usize].r;
    lines::put_line(out, at, step, caller, r0, r[0], r[2])
}

// Runs from call to call with what is left of the budget, and puts a line for each call into the buffer, and the last line: the
// whole text of the run, or as much as there is room for.
#[tactic(auto, unfolding(crate::specs::Told::piece_then))]
fn put_piece(machine: Machine, mem: &mut [u32], budget: u32, left: u32, out: &mut [u8]) -> Piece
    requires { (left ≤ budget) × (64 ≤ length out.old) }
    ensures piece { PutPiece budget left machine mem.old result mem.new out.new }
    ensures within { result.left ≤ left }
    ensures state { state result.machine mem.new ≡ reached machine mem.old (left - result.left) }
{
    let mut piece = Piece {
        end: 0,
        machine,
        left,
        more: true,
    };
    while 64 <= out.len() - piece.end {
        let leg = creamtally::run_to_call(piece.machine, mem, piece.left);
        piece.machine = leg.machine;
        piece.left -= leg.count;
        let Some(call) = leg.call else {
            let end = lines::put_end(out, piece.end, budget - piece.left, piece.machine.mode);
            return Piece {
                end,
                more: false,
                ..piece
            };
        };
        piece.end = put_call(out, piece.end, budget - piece.left, call, &piece.machine);
    }
    // The buffer may have no room for one more line.
    piece
}

// Runs to the end, and writes the run's text, piece by piece. It fails only where a write does, and then runs no further: the
// lent memory is what some number of the run's steps leave.
pub fn play(to: Stdout, machine: Machine, mem: &mut [u32], budget: u32) -> io::Result<Ending>
    ensures ok { IfOk result (λ r. r ≡ ending_of (run_of machine mem.old budget)) }
    ensures err { OnErr result ((k : ℕ) × (k ≤ budget) × (mem.new ≡ (run_of machine mem.old k).memory)) }
{
    let mut out = [0; 8192];
    let mut m = machine;
    let mut left = budget;
    loop {
        let piece = put_piece(m, mem, budget, left, &mut out);
        to.write_all(&out[..piece.end])?;
        m = piece.machine;
        left = piece.left;
        if !piece.more {
            return Ok(Ending {
                steps: budget - left,
                machine: m,
            });
        }
    }
}
