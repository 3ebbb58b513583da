// Why a call is refused.

ghost use Rattle.std.specs.Prelude.{◌≡◌};
ghost use Rattle.parts.specs.Refusal.{code_of};

// The errors of the calls, under their names.
#[derive(Clone, Copy, PartialEq, Eq)]
pub enum Refusal {
    NotSupported,
    Invalid,
    NoMemory,
    Busy,
    Denied,
    Aborted,
    NoData,
}

// An error's code in R2: below zero, modulo 2^32.
impl From<Refusal> for u32 {
    ghost from_gives = { λ refusal code. code ≡ code_of refusal };

    #[tactic(auto, unfolding(crate::specs::Refusal::code_of))]
    fn from(refusal: Refusal) -> u32 {
        match refusal {
            Refusal::NotSupported => 0xFFFFFFFF,
            Refusal::Invalid => 0xFFFFFFFE,
            Refusal::NoMemory => 0xFFFFFFFD,
            Refusal::Busy => 0xFFFFFFFC,
            Refusal::Denied => 0xFFFFFFFA,
            Refusal::Aborted => 0xFFFFFFF8,
            Refusal::NoData => 0xFFFFFFF7,
        }
    }
}
