//! A line of `magic`: `[indent] > start = value [& mask] [~ word] [+ range] newline`.

ghost use Rattle.std.specs.Prelude.{◌≡◌, Ok};
ghost use Rattle.mime_base.specs.Magic.{fits_word, mask_bytes};
ghost use Rattle.mime_text.specs.Magic.Entries.{plain_raw_line, plain_entry, plain_line, plain_role, slice_bytes};
ghost use Rattle.mime_text.specs.Magic.Reading.{Agrees, AgreesIfMemory, body_at, bytes_at, end_at, indent_at, line_at, mask_at, range_at};
ghost use Rattle.mime_text.specs.Magic.Reading.{row_at, start_at, sized_at, word_at};

use super::entry::{MagicEntry, MagicLine, Role};
use super::fault::{Fault, MagicFaultKind, ReadError, fault_at};
use super::number::{LIMIT, byte, number};
use memchr::memchr;
use std::alloc::Global;

/// The first indent that is too deep.
const LEVELS: u32 = 64;

/// A line from its start to its range, as slices of the text.
#[derive(Clone, Copy, Debug)]
pub struct RawLine<'a> {
    pub start: u32,
    pub range: u32,
    pub word: u32,
    pub value: &'a [u8],
    pub mask: Option<&'a [u8]>,
}

/// The bytes before the next newline, and those after it.
pub fn row(bytes: &[u8]) -> Result<(&[u8], &[u8]), Fault>
    // The row ends before the next newline; without one the text is truncated.
    ensures { Agrees (λ x. (x.0.now, x.1.now)) result (row_at bytes.now) }
{
    let Some(end) = memchr(b'\n', bytes) else {
        return Err(Fault::TRUNCATED);
    };
    Ok((&bytes[..end], &bytes[end + 1..]))
}

#[tactic(auto, unfolding(crate::specs::Magic::Reading::indent_at))]
fn indent(bytes: &[u8]) -> Result<(u32, &[u8]), Fault>
    ensures { Agrees (λ x. (x.0, x.1.now)) result (indent_at bytes.now) }
{
    match bytes {
        [] => Err(Fault::TRUNCATED),
        [b'>', rest @ ..] => Ok((0, rest)),
        [_, ..] => {
            let (indent, rest) = number(bytes)?;
            let rest = byte(b'>', fault_at(MagicFaultKind::BadIndent, bytes), rest)?;
            Ok((indent, rest))
        }
    }
}

#[tactic(auto, unfolding(crate::specs::Magic::Reading::start_at))]
fn start(bytes: &[u8]) -> Result<(u32, &[u8]), Fault>
    ensures { Agrees (λ x. (x.0, x.1.now)) result (start_at bytes.now) }
{
    let (start, rest) = number(bytes)?;
    let rest = byte(b'=', fault_at(MagicFaultKind::BadNumber, bytes), rest)?;
    Ok((start, rest))
}

#[tactic(auto, unfolding(crate::specs::Magic::Reading::bytes_at))]
fn some_bytes(bytes: &[u8], n: usize) -> Result<(&[u8], &[u8]), Fault>
    ensures { Agrees (λ x. (x.0.now, x.1.now)) result (bytes_at n bytes.now) }
{
    if bytes.len() < n {
        return Err(Fault::TRUNCATED);
    }
    Ok(bytes.split_at(n))
}

#[tactic(auto, unfolding(crate::specs::Magic::Reading::sized_at))]
fn value(bytes: &[u8]) -> Result<(&[u8], &[u8]), Fault>
    ensures { Agrees (λ x. (x.0.now, x.1.now)) result (sized_at bytes.now) }
{
    match bytes {
        [] => Err(Fault::TRUNCATED),
        [_] => Err(Fault::TRUNCATED),
        [high, low, rest @ ..] => {
            let (value, rest) = some_bytes(rest, 256 * usize::from(*high) + usize::from(*low))?;
            Ok((value, rest))
        }
    }
}

#[tactic(auto, unfolding(crate::specs::Magic::Reading::mask_at))]
fn mask(bytes: &[u8], n: usize) -> Result<(Option<&[u8]>, &[u8]), Fault>
    ensures { Agrees (λ x. (slice_bytes x.0, x.1.now)) result (mask_at n bytes.now) }
{
    match bytes {
        [b'&', rest @ ..] => {
            let (mask, rest) = some_bytes(rest, n)?;
            Ok((Some(mask), rest))
        }
        _ => Ok((None, bytes)),
    }
}

/// Whether a value of that many bytes is made of words of this size.
fn fits_word(word: u32, size: usize) -> bool
    ensures { result ≡ fits_word word size }
{
    word == 1 || (word == 2 && size % 2 == 0) || (word == 4 && size % 4 == 0)
}

#[tactic(auto, unfolding(crate::specs::Magic::Reading::word_at))]
fn word(bytes: &[u8], size: usize) -> Result<(u32, &[u8]), Fault>
    ensures { Agrees (λ x. (x.0, x.1.now)) result (word_at size bytes.now) }
{
    match bytes {
        [b'~', rest @ ..] => {
            let (word, after) = number(rest)?;
            if !fits_word(word, size) {
                return Err(fault_at(MagicFaultKind::BadWord, rest));
            }
            Ok((word, after))
        }
        _ => Ok((1, bytes)),
    }
}

#[tactic(auto, unfolding(crate::specs::Magic::Reading::range_at))]
fn range(bytes: &[u8]) -> Result<(u32, &[u8]), Fault>
    ensures { Agrees (λ x. (x.0, x.1.now)) result (range_at bytes.now) }
{
    match bytes {
        [b'+', rest @ ..] => number(rest),
        _ => Ok((1, bytes)),
    }
}

#[tactic(auto, unfolding(crate::specs::Magic::Reading::body_at))]
fn body(bytes: &[u8]) -> Result<(RawLine<'_>, &[u8]), Fault>
    ensures { Agrees (λ x. (plain_raw_line x.0, x.1.now)) result (body_at bytes.now) }
{
    let (start, rest) = start(bytes)?;
    let (value, rest) = value(rest)?;
    let (mask, rest) = mask(rest, value.len())?;
    let (word, rest) = word(rest, value.len())?;
    let (range, rest) = range(rest)?;
    let body = RawLine {
        start,
        range,
        word,
        value,
        mask,
    };
    Ok((body, rest))
}

fn copied_mask(alloc: Global, mask: Option<&[u8]>) -> Result<Option<Vec<u8>>, ReadError>
    ensures { AgreesIfMemory mask_bytes result (Ok (slice_bytes mask.entry)) }
{
    match mask {
        Some(mask) => Ok(Some(Vec::from_slice(alloc, mask)?)),
        None => Ok(None),
    }
}

/// The line as it is kept, with copies of its bytes.
fn copied(alloc: Global, body: RawLine) -> Result<MagicLine, ReadError>
    ensures { AgreesIfMemory plain_line result (Ok (plain_raw_line body.entry)) }
{
    let value = Vec::from_slice(alloc, body.value)?;
    let mask = copied_mask(alloc, body.mask)?;
    Ok(MagicLine {
        start: body.start,
        range: body.range,
        word: body.word,
        value,
        mask,
    })
}

/// The end of a line after its range. A newline makes it a line that is kept; any other byte makes
/// it ignored, up to its newline. `left` bytes are left at the line's first byte.
#[tactic(auto, unfolding(crate::specs::Magic::Reading::end_at))]
fn end<'a>(
    alloc: Global,
    left: usize,
    body: RawLine<'a>,
    bytes: &'a [u8],
) -> Result<(Role, &'a [u8]), ReadError>
    ensures { AgreesIfMemory (λ x. (plain_role x.0, x.1.now)) result
        (end_at left (plain_raw_line body.entry) bytes.now) }
{
    match bytes {
        [] => Err(ReadError::Fault(Fault::TRUNCATED)),
        [b'\n', rest @ ..] => {
            if u64::from(body.start) + u64::from(body.range) + body.value.len() as u64 >= LIMIT {
                return Err(ReadError::Fault(Fault {
                    kind: MagicFaultKind::BadNumber,
                    left,
                }));
            }
            let line = copied(alloc, body)?;
            Ok((Role::Kept(line), rest))
        }
        [_, rest @ ..] => {
            let (_, rest) = row(rest)?;
            Ok((Role::Ignored, rest))
        }
    }
}

/// A line whose indent may be at most `limit`, and what comes after it.
#[tactic(auto, unfolding(crate::specs::Magic::Reading::line_at))]
pub fn line(alloc: Global, limit: u32, bytes: &[u8]) -> Result<(MagicEntry, &[u8]), ReadError>
    // It is the line that the definition reads here, with what is left, or its first fault, or memory ran out.
    ensures { AgreesIfMemory (λ x. (plain_entry x.0, x.1.now)) result (line_at limit bytes.now) }
{
    let (indent, rest) = indent(bytes)?;
    if indent > limit {
        return Err(ReadError::Fault(fault_at(MagicFaultKind::BadIndent, bytes)));
    }
    if indent >= LEVELS {
        return Err(ReadError::Fault(fault_at(MagicFaultKind::TooDeep, bytes)));
    }
    let (body, rest) = body(rest)?;
    let (role, rest) = end(alloc, bytes.len(), body, rest)?;
    Ok((MagicEntry { indent, role }, rest))
}
