//! The third number of an entry or a leaf: a weight, and the case-sensitive flag ("The mime.cache files").

ghost use Rattle.std.specs.Prelude.{◌≡◌, ◌/◌, ◌%◌, ◌==◌};

/// The flag of a case-sensitive rule, above the weight.
const CASED: u32 = 0x100;

/// The weight in the low 8 bits, and whether the flag above them is set. Other bits say nothing.
// A step of each loop over rules.
#[inline(always)]
pub fn weight_and_case(flags: u32) -> (u8, bool)
    // The weight is what is left below the flag.
    ensures weight { result.0 ≡ flags % 256 }
    // The flag is the bit above the weight.
    ensures cased { result.1 ≡ (flags / 256 % 2 == 1) }
{
    ((flags % CASED) as u8, flags / CASED % 2 == 1)
}
