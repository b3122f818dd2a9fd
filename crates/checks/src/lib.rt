// Why calls are refused, and refusals 1 to 3, which every operation on a family, a k and an L begins with.
#![tactic(auto)]

ghost use Rattle.std.specs.Prelude.{◌≡◌, IfOk};
ghost use Rattle.checks.specs.Checks.{first_met};
ghost use Rattle.checks.specs.Parameters.{parameter_checks};
ghost use Rattle.checks.specs.Refusals.{number_of, number_in, block_of, IsCodeOf};

use families::{Code, Family, UnknownFamily};

// The largest L, the length of a block in bytes.
pub const MOST_LENGTH: usize = 1536;

// Why a call is refused.
#[derive(Clone, Copy, Debug, PartialEq, Eq)]
pub enum Refusal {
    UnknownFamily,
    BlockCount,
    BlockLength,
    UnknownNode,
    ListNotRising,
    BufferLength,
    BoxLength,
    NotZero,
    HeldCount,
    NotRelated,
    NodeLive,
    NodeMissing,
    UnsoundSession,
    BlockMissing(usize),
}

// Its number.
impl From<Refusal> for u8 {
    ghost from_gives = { λ refusal number. number ≡ number_of refusal };

    fn from(refusal: Refusal) -> u8 {
        match refusal {
            Refusal::UnknownFamily => 1,
            Refusal::BlockCount => 2,
            Refusal::BlockLength => 3,
            Refusal::UnknownNode => 4,
            Refusal::ListNotRising => 5,
            Refusal::BufferLength => 6,
            Refusal::BoxLength => 7,
            Refusal::NotZero => 8,
            Refusal::HeldCount => 9,
            Refusal::NotRelated => 10,
            Refusal::NodeLive => 11,
            Refusal::NodeMissing => 12,
            Refusal::UnsoundSession => 13,
            Refusal::BlockMissing(_) => 14,
        }
    }
}

impl Refusal {
    // The data block that it names; 0 where it names none, as C's answer has it.
    pub fn block(self) -> usize
        ensures { result ≡ block_of self }
    {
        match self {
            Refusal::BlockMissing(block) => block,
            _ => 0,
        }
    }
}

// The number of what a call gives, for C: 0 where it is served.
pub fn number<T: Copy>(given: Result<T, Refusal>) -> u8
    ensures { result ≡ number_in given }
{
    match given {
        Ok(_) => 0,
        Err(refusal) => u8::from(refusal),
    }
}

impl From<UnknownFamily> for Refusal {
    ghost use Rattle.checks.specs.declared.Refusal.TheVariants.{UnknownFamily};

    ghost from_gives = { λ _ refusal. refusal ≡ UnknownFamily };

    fn from(_number: UnknownFamily) -> Refusal {
        Refusal::UnknownFamily
    }
}

// The code of a family and a k, where they and L are in range; else 1, 2 or 3, in this order. The family comes as a number: it is here that
// any number is served or refused.
pub fn parameters(family: usize, k: usize, len: usize) -> Result<Code, Refusal>
    ensures number { number_in result ≡ first_met (parameter_checks family k len) }
    ensures code { IfOk result (IsCodeOf family k) }
{
    let family = Family::try_from(family)?;
    if base::is_outside(family.least_k(), family.most_k(), k) {
        return Err(Refusal::BlockCount);
    }
    if base::is_outside(1, MOST_LENGTH, len) {
        return Err(Refusal::BlockLength);
    }
    Ok(Code { family, k })
}
