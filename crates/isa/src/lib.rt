// Instruction words: the thirteen instructions, and the two ways between a word and its meaning.
//
// Both entries take any input. `decode` gives the meaning of a word or says that it has none; `encode` gives the one
// word of a meaning or says that it has none. Beside them `fields_of` and `legal`, of which decoding is made, serve the
// inner loop, which has no use for the meaning as a value. What they answer is defined in `specs/`, and their contracts
// are equations with those definitions.

#![tactic(auto)]

pub mod codes;

ghost use Rattle.std.specs.Prelude.{◌≡◌, true};
ghost use Rattle.isa.specs.Opcodes.{opcode, opcode_at};
ghost use Rattle.isa.specs.Word.{fields_of, word_of, fits_shape, legal};
ghost use Rattle.isa.specs.Decode.{decode_of};
ghost use Rattle.isa.specs.Encode.{fields, parts_of, encode_of};

// What a word tells the machine to do. d and s are register numbers, k a number of 16 bits. The types are wider than
// the fields: a value that no word can hold is no instruction, and `encode` says so.
#[derive(Clone, Copy, PartialEq, Eq, Debug)]
pub enum Instruction {
    Movi(u8, u32),
    Movt(u8, u32),
    Mov(u8, u8),
    Ldr(u8, u8),
    Str(u8, u8),
    Add(u8, u8),
    Sub(u8, u8),
    Addi(u8, u32),
    Cmp(u8, u8),
    Bne(u8),
    Br(u8),
    Hvc,
    Halt,
}

// Which of the fields d, s and k an instruction has; `None` for a code that is no instruction's.
#[derive(Clone, Copy, PartialEq, Eq, Debug)]
pub enum Shape {
    None,
    DK,
    DS,
    S,
    Bare,
}

// The four fields of a word.
#[derive(Clone, Copy, PartialEq, Eq, Debug)]
pub struct Fields {
    pub code: u8,
    pub d: u8,
    pub s: u8,
    pub k: u32,
}

// What a code stands for: the fields that its words have, and the instruction.
#[derive(Clone, Copy, PartialEq, Eq, Debug)]
pub struct Opcode {
    pub shape: Shape,
    pub means: Instruction,
}

// A word cut into its fields.
pub fn fields_of(word: u32) -> Fields
    ensures { result ≡ fields_of word }
{
    Fields {
        code: (word % 256) as u8,
        d: (word / 256 % 16) as u8,
        s: (word / 4096 % 16) as u8,
        k: word / 65536,
    }
}

// The row that a word with these fields is an instance of.
#[tactic(auto, using(crate::proofs::Laws::no_opcode), unfolding(crate::specs::Opcodes::opcode_at, crate::specs::Opcodes::opcodes))]
fn opcode_at(f: Fields) -> Opcode
    ensures { result ≡ opcode_at f }
{
    let (shape, means) = match f.code {
        codes::MOVI => (Shape::DK, Instruction::Movi(f.d, f.k)),
        codes::MOVT => (Shape::DK, Instruction::Movt(f.d, f.k)),
        codes::MOV => (Shape::DS, Instruction::Mov(f.d, f.s)),
        codes::LDR => (Shape::DS, Instruction::Ldr(f.d, f.s)),
        codes::STR => (Shape::DS, Instruction::Str(f.d, f.s)),
        codes::ADD => (Shape::DS, Instruction::Add(f.d, f.s)),
        codes::SUB => (Shape::DS, Instruction::Sub(f.d, f.s)),
        codes::ADDI => (Shape::DK, Instruction::Addi(f.d, f.k)),
        codes::CMP => (Shape::DS, Instruction::Cmp(f.d, f.s)),
        codes::BNE => (Shape::S, Instruction::Bne(f.s)),
        codes::BR => (Shape::S, Instruction::Br(f.s)),
        codes::HVC => (Shape::Bare, Instruction::Hvc),
        codes::HALT => (Shape::Bare, Instruction::Halt),
        _ => (Shape::None, Instruction::Halt),
    };
    Opcode { shape, means }
}

// Whether each field that the shape has is a register's number, and each that it lacks is zero.
#[tactic(auto, unfolding(crate::specs::Word::fits_shape, crate::proofs::Tests::joined))]
fn fits_shape(shape: Shape, f: Fields) -> bool
    ensures { result ≡ fits_shape shape f }
{
    match shape {
        Shape::None => false,
        Shape::DK => (f.d < 8) & (f.s == 0),
        Shape::DS => (f.d < 8) & (f.s < 8) & (f.k == 0),
        Shape::S => (f.d == 0) & (f.s < 8) & (f.k == 0),
        Shape::Bare => (f.d == 0) & (f.s == 0) & (f.k == 0),
    }
}

// Whether the fields are an instruction's.
#[tactic(auto, unfolding(crate::specs::Word::legal, crate::proofs::Tests::joined))]
pub fn legal(f: Fields) -> bool
    ensures { result ≡ legal f }
{
    (f.k < 65536) & fits_shape(opcode_at(f).shape, f)
}

// What a word means, if it means anything.
#[tactic(auto, unfolding(crate::specs::Decode::decode_of, crate::specs::Decode::meaning_of))]
pub fn decode(word: u32) -> Option<Instruction>
    ensures { result ≡ decode_of word }
{
    let f = fields_of(word);
    if legal(f) {
        Some(opcode_at(f).means)
    } else {
        None
    }
}

// The fields of a meaning: zero where the instruction has no field.
fn parts_of(i: Instruction) -> Fields
    ensures { result ≡ parts_of i }
{
    let (code, d, s, k) = match i {
        Instruction::Movi(d, k) => (codes::MOVI, d, 0, k),
        Instruction::Movt(d, k) => (codes::MOVT, d, 0, k),
        Instruction::Mov(d, s) => (codes::MOV, d, s, 0),
        Instruction::Ldr(d, s) => (codes::LDR, d, s, 0),
        Instruction::Str(d, s) => (codes::STR, d, s, 0),
        Instruction::Add(d, s) => (codes::ADD, d, s, 0),
        Instruction::Sub(d, s) => (codes::SUB, d, s, 0),
        Instruction::Addi(d, k) => (codes::ADDI, d, 0, k),
        Instruction::Cmp(d, s) => (codes::CMP, d, s, 0),
        Instruction::Bne(s) => (codes::BNE, 0, s, 0),
        Instruction::Br(s) => (codes::BR, 0, s, 0),
        Instruction::Hvc => (codes::HVC, 0, 0, 0),
        Instruction::Halt => (codes::HALT, 0, 0, 0),
    };
    Fields { code, d, s, k }
}

// The word that has these fields.
#[tactic(auto, using(crate::proofs::Laws::legal_bounded))]
fn word_of(f: Fields) -> u32
    requires { legal f ≡ true }
    ensures { result ≡ word_of f }
{
    u32::from(f.code) + 256 * u32::from(f.d) + 4096 * u32::from(f.s) + 65536 * f.k
}

// The word of a meaning, if a word can hold it.
#[tactic(auto, unfolding(crate::specs::Encode::encode_of))]
pub fn encode(i: Instruction) -> Option<u32>
    ensures { result ≡ encode_of i }
{
    let f = parts_of(i);
    if legal(f) { Some(word_of(f)) } else { None }
}
