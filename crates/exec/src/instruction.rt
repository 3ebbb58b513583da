// One instruction of a guest: fetched, tested and executed. The register file is lent, so that the inner loop keeps it where it
// stands.

ghost use Rattle.std.specs.Prelude.{◌≡◌, ℕ, ◌*◌, ◌<◌, ◌≤◌, true, List, length};
ghost use Rattle.isa.specs.declared.Instruction.TheVariants.{Ldr, Str, Cmp, Bne};
ghost use Rattle.isa.specs.Opcodes.{opcode_at};
ghost use Rattle.isa.specs.Word.{legal};
ghost use Rattle.model.specs.Constants.{PAGE, PAGES};
ghost use Rattle.model.specs.State.{plus, register, with_register};
ghost use Rattle.model.specs.Rights.{Rights};
ghost use Rattle.model.specs.Execute.{topped, minus, advanced, jumped};
ghost use Rattle.exec.specs.declared.instruction.Stop.TheVariants.{Moved};
ghost use Rattle.exec.specs.Maps.{by_maps};
ghost use Rattle.exec.specs.Turn.{turn, performs, turn_of};

use crate::access;
use crate::rights::Maps;
use isa::{Fields, codes};
use model::Registers;

// How an instruction ends: the guest moved on, or what stopped it.
#[derive(Clone, Copy)]
pub enum Stop {
    Moved,
    Called,
    Faulted,
    Halted,
}

// The sum and the difference of two words, and the low half of a with k for the high half.
#[tactic(auto, unfolding(model::specs::State::plus))]
fn plus(a: u32, b: u32) -> u32
    ensures { result ≡ plus a b }
{
    a.wrapping_add(b)
}

#[tactic(auto, unfolding(model::specs::Execute::minus))]
fn minus(a: u32, b: u32) -> u32
    ensures { result ≡ minus a b }
{
    a.wrapping_sub(b)
}

#[tactic(auto, unfolding(model::specs::Execute::topped))]
fn topped(a: u32, k: u32) -> u32
    requires { k < 65536 }
    ensures { result ≡ topped a k }
{
    a % 65536 + 65536 * k
}

// The word in register i.
#[tactic(auto, unfolding(model::specs::State::register))]
fn get(file: &Registers, i: u8) -> u32
    requires { i < 8 }
    ensures { result ≡ register file.now i }
{
    file.r[i as usize]
}

// To the next address.
#[tactic(auto, unfolding(model::specs::Execute::advanced))]
fn goes_on(file: &mut Registers) -> Stop
    ensures { (result ≡ Moved) × (file.new ≡ advanced file.old) }
{
    file.pc = plus(file.pc, 1);
    Stop::Moved
}

// To the address in Rs.
fn branch(file: &mut Registers, s: u8) -> Stop
    requires { s < 8 }
    ensures { (result ≡ Moved) × (file.new ≡ jumped file.old (register file.old s)) }
{
    file.pc = get(file, s);
    Stop::Moved
}

// Rd becomes v, and pc goes on.
fn gets(file: &mut Registers, d: u8, v: u32) -> Stop
    requires { d < 8 }
    ensures { (result ≡ Moved) × (file.new ≡ advanced (with_register file.old d v)) }
{
    file.r[d as usize] = v;
    goes_on(file)
}

// Rd becomes the word at Rs, if the guest may load it.
fn load(file: &mut Registers, d: u8, s: u8, maps: Maps, mem: &mut [u32]) -> Stop
    requires { (d < 8) × (s < 8) × (length mem.old ≤ PAGE * PAGES) }
    ensures { turn result file.new mem.new
        ≡ performs (Ldr d s) (by_maps maps.loads maps.stores) file.old mem.old }
{
    let x = get(file, s);
    if !access::may_reach(maps.loads, mem.len(), x) {
        return Stop::Faulted;
    }
    gets(file, d, mem[x as usize])
}

// The word at Rs becomes Rd, if the guest may store it.
fn store(file: &mut Registers, d: u8, s: u8, maps: Maps, mem: &mut [u32]) -> Stop
    requires { (d < 8) × (s < 8) × (length mem.old ≤ PAGE * PAGES) }
    ensures { turn result file.new mem.new
        ≡ performs (Str d s) (by_maps maps.loads maps.stores) file.old mem.old }
{
    let x = get(file, s);
    if !access::may_reach(maps.stores, mem.len(), x) {
        return Stop::Faulted;
    }
    mem[x as usize] = get(file, d);
    goes_on(file)
}

// To the address in Rs if the flag is clear.
#[tactic(auto, unfolding(crate::specs::Turn::performs, crate::specs::Turn::ends, model::specs::Execute::perform))]
fn branch_unless(file: &mut Registers, s: u8) -> Stop
    requires { s < 8 }
    ensures { (rights : Rights) (memory : List ℕ) →
        turn result file.new memory ≡ performs (Bne s) rights file.old memory }
{
    if file.equal {
        return goes_on(file);
    }
    branch(file, s)
}

// The flag says whether Rd and Rs are the same word, and pc goes on.
#[tactic(auto, unfolding(crate::specs::Turn::performs, crate::specs::Turn::ends, model::specs::Execute::perform))]
fn compares(file: &mut Registers, d: u8, s: u8) -> Stop
    requires { (d < 8) × (s < 8) }
    ensures { (rights : Rights) (memory : List ℕ) →
        turn result file.new memory ≡ performs (Cmp d s) rights file.old memory }
{
    file.equal = get(file, d) == get(file, s);
    goes_on(file)
}

// What the instruction with these fields does.
#[tactic(auto, using(crate::proofs::Moves::legal_d, crate::proofs::Moves::legal_s, crate::proofs::Moves::legal_k))]
fn perform(f: Fields, file: &mut Registers, maps: Maps, mem: &mut [u32]) -> Stop
    requires { (legal f ≡ true) × (length mem.old ≤ PAGE * PAGES) }
    ensures { turn result file.new mem.new
        ≡ performs (opcode_at f).means (by_maps maps.loads maps.stores) file.old mem.old }
{
    let Fields { code, d, s, k } = f;
    match code {
        codes::MOVI => gets(file, d, k),
        codes::MOVT => gets(file, d, topped(get(file, d), k)),
        codes::MOV => gets(file, d, get(file, s)),
        codes::LDR => load(file, d, s, maps, mem),
        codes::STR => store(file, d, s, maps, mem),
        codes::ADD => gets(file, d, plus(get(file, d), get(file, s))),
        codes::SUB => gets(file, d, minus(get(file, d), get(file, s))),
        codes::ADDI => gets(file, d, plus(get(file, d), k)),
        codes::CMP => compares(file, d, s),
        codes::BNE => branch_unless(file, s),
        codes::BR => branch(file, s),
        codes::HVC => Stop::Called,
        _ => Stop::Halted,
    }
}

// One instruction: the word at pc, if the guest may fetch it and it is one.
pub fn one(file: &mut Registers, maps: Maps, mem: &mut [u32]) -> Stop
    requires { length mem.old ≤ PAGE * PAGES }
    ensures { turn result file.new mem.new
        ≡ turn_of (by_maps maps.loads maps.stores) file.old mem.old }
{
    let at = file.pc;
    if !access::may_reach(maps.loads, mem.len(), at) {
        return Stop::Faulted;
    }
    let f = isa::fields_of(mem[at as usize]);
    if !isa::legal(f) {
        return Stop::Faulted;
    }
    perform(f, file, maps, mem)
}
