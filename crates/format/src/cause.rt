// The refusals of document 01's table "Causes and replies" and those that document 02 adds, each with its number.
ghost use Rattle.std.specs.Prelude.{◌≡◌};
ghost use Rattle.format.specs.Cause.{number};

use std::fmt;

#[derive(Clone, Copy, Debug, PartialEq, Eq)]
pub enum Cause {
    // w below 2 or above 11
    ExponentBits = 1,
    // f below 2 or above 52
    FractionBits = 2,
    // operation above 1
    Operation = 3,
    // mode above 4
    Mode = 4,
    // a's mask malformed, or x's, or either in joining: a bit above its width, or a value bit outside care
    Mask = 5,
    // operand, proposed or random word, or a bound, above its width
    Word = 6,
    // no case fits
    NoCase = 7,
    // record cut short
    Cut = 8,
    // a bit of the second map that stands for no field
    MapBits = 9,
    // field that says its default, or an empty second map
    DefaultField = 10,
    // buffer too short for the record
    Buffer = 11,
    // N outside 1 to 32
    WholeLength = 12,
    // two masks fix one bit unlike
    Clash = 13,
    // b's mask malformed, or y's
    SecondMask = 14,
    // c's mask malformed, or z's
    ThirdMask = 15,
    // the carry mask malformed
    CarryMask = 16,
    // g above 8, or the mask of the dropped bits malformed
    DroppedMask = 17,
    // a bound is a NaN, or the low one exceeds the high one
    Bounds = 18,
}

impl Cause {
    // Its number in the table.
    pub fn number(self) -> u64
        ensures { result ≡ number self }
    {
        self as u64
    }
}

impl fmt::Display for Cause {
    fn fmt<W: fmt::Write>(&self, f: &mut fmt::Formatter<W>) -> fmt::Result {
        write!(f, "{}", self.number())
    }
}
