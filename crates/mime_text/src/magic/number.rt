//! Decimal numbers below 2^32, and single bytes that have to stand somewhere.

ghost use Rattle.std.specs.Prelude.{◌≡◌, min};
ghost use Rattle.mime_text.specs.Magic.Reading.{Agrees, byte_at, digits_at, is_digit, number_at};

use super::fault::{Fault, MagicFaultKind, fault_at};

/// The least number that is too large.
pub const LIMIT: u64 = 4_294_967_296;

pub fn is_digit(b: u8) -> bool
    // The digits are the bytes `0` to `9`.
    ensures { result ≡ is_digit b }
{
    b'0' <= b && b <= b'9'
}

/// The value of the digits at the front, at most [`LIMIT`], and what comes after them.
fn digits(bytes: &[u8]) -> (u64, &[u8])
    ensures value { result.0 ≡ min (digits_at 0 bytes.now).0 4294967296 }
    ensures rest { result.1.now ≡ (digits_at 0 bytes.now).1 }
{
    let mut value: u64 = 0;
    let mut rest = bytes;
    while let Some((b, after)) = rest.split_first() {
        if !is_digit(*b) {
            break;
        }
        value = (value * 10 + u64::from(*b - b'0')).min(LIMIT);
        rest = after;
    }
    (value, rest)
}

/// A number and what comes after it. It ends at the first byte that is no digit, and is judged there.
#[tactic(auto, unfolding(crate::specs::Magic::Reading::number_at, crate::specs::Magic::Reading::judged))]
pub fn number(bytes: &[u8]) -> Result<(u32, &[u8]), Fault>
    // It is the number that the definition reads here, with what is left, or its fault.
    ensures { Agrees (λ x. (x.0, x.1.now)) result (number_at bytes.now) }
{
    let (value, rest) = digits(bytes);
    if rest.is_empty() {
        return Err(Fault::TRUNCATED);
    }
    if rest.len() == bytes.len() || value >= LIMIT {
        return Err(fault_at(MagicFaultKind::BadNumber, bytes));
    }
    Ok((value as u32, rest))
}

/// What comes after the byte `want`, which has to stand here.
#[tactic(auto, unfolding(crate::specs::Magic::Reading::byte_at))]
pub fn byte(want: u8, wrong: Fault, bytes: &[u8]) -> Result<&[u8], Fault>
    // What is left after that byte, or else the fault that was handed in, or a cut at the text's end.
    ensures { Agrees (λ x. x.now) result (byte_at want wrong bytes.now) }
{
    let Some((b, rest)) = bytes.split_first() else {
        return Err(Fault::TRUNCATED);
    };
    if *b != want {
        return Err(wrong);
    }
    Ok(rest)
}
