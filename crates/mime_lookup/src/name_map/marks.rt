//! Marks of names: a number of eight bytes of their middle and their last eight, by which most names are told from all others.

ghost use Rattle.std.specs.Prelude.{◌≡◌, ◌<◌};
ghost use Rattle.mime_lookup.specs.Marks.{mark};

/// How many marks there are.
pub const MARKS: usize = 16_384;

/// What the bytes are multiplied by, so that names that differ in a few have marks of their own: of SplitMix64.
const SPREAD: u64 = 0xbf58_476d_1ce4_e5b9;

/// How many numbers of 64 bits have one mark.
const SHARE: u64 = 1 << 50;

/// The mark of a name.
#[inline]
#[tactic(auto, unfolding(crate::specs::Marks::mark))]
pub fn mark_of(name: &[u8]) -> usize
    // Names that are equal have one mark.
    ensures mark { result ≡ mark name.now }
    // It is one of these.
    ensures within { result < 16384 }
{
    let Some(last) = name.last_chunk::<8>() else {
        return 0;
    };
    let start = name.len() / 2 - 4;
    let Some(middle) = name[start..start + 8].first_chunk::<8>() else {
        return 0;
    };
    let sum = u64::from_le_bytes(*middle)
        .wrapping_mul(3)
        .wrapping_add(u64::from_le_bytes(*last));
    (sum.wrapping_mul(SPREAD) / SHARE) as usize
}
