// The code of each instruction: the lowest byte of its words.

pub const MOVI: u8 = 1;

pub const MOVT: u8 = 2;

pub const MOV: u8 = 3;

pub const LDR: u8 = 4;

pub const STR: u8 = 5;

pub const ADD: u8 = 6;

pub const SUB: u8 = 7;

pub const ADDI: u8 = 8;

pub const CMP: u8 = 9;

pub const BNE: u8 = 10;

pub const BR: u8 = 11;

pub const HVC: u8 = 12;

pub const HALT: u8 = 13;
