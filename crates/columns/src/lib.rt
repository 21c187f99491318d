// Numbers that are read a column of bits at a time. What is here is laws, in specs/ and proofs/, and one test that every walk over
// columns asks.
#![tactic(auto)]

ghost use Rattle.std.specs.Prelude.{◌≡◌};
ghost use Rattle.columns.specs.Column.{allows};

// Whether a mask, care and value, lets bit i be b.
pub fn allows(care: u64, value: u64, i: u64, b: u64) -> bool
    ensures { result ≡ allows care value i b }
{
    b & bits::bit_at(care, i) == bits::bit_at(value, i)
}
