// Words of a format: their fields, the operands that they stand for, and words put together from fields.
#![tactic(auto)]

pub mod exponent;
pub mod masks;
pub mod pack;
pub mod unpack;

// A biased exponent: the exponent field of a word.
#[derive(Clone, Copy)]
pub struct Biased(pub u64);

// The exponent of a unit: a unit is 2 to this power smallest steps.
#[derive(Clone, Copy)]
pub struct Unit(pub u64);

// A finite number: its magnitude is the significand in units.
#[derive(Clone, Copy)]
pub struct Finite {
    pub sign: u64,
    pub exponent: Biased,
    pub significand: u64,
}

// An operand by its kind; Infinite holds the sign.
#[derive(Clone, Copy)]
pub enum Operand {
    Finite(Finite),
    Infinite(u64),
    Nan,
}

// The operands of an effective addition.
#[derive(Clone, Copy)]
pub struct Operands {
    pub a: Operand,
    pub b: Operand,
}
