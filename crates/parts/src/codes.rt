// The numbers of the calls, and of the answers in R0. Those of the errors in R2 are in `refusal`.

pub const ERROR: u32 = 0x84000060;

pub const SUCCESS: u32 = 0x84000061;

pub const POLL: u32 = 0x8400006A;

pub const WAIT: u32 = 0x8400006B;

pub const YIELD: u32 = 0x8400006C;

pub const RUN: u32 = 0x8400006D;

pub const SEND: u32 = 0x8400006E;

pub const DONATE: u32 = 0x84000071;

pub const LEND: u32 = 0x84000072;

pub const SHARE: u32 = 0x84000073;

pub const RETRIEVE: u32 = 0x84000074;

pub const RELINQUISH: u32 = 0x84000076;

pub const RECLAIM: u32 = 0x84000077;
