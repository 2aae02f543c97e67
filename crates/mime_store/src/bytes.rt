//! Numbers, texts and values at the end of the bytes of a cache.
//!
//! That numbers are big-endian and texts end in a zero byte is the public specification's. Each text and
//! value begins at a multiple of 4, which readers that map the file into memory want.

ghost use Rattle.std.specs.Prelude.{◌≡◌, true, ◌+◌, ◌-◌, ◌*◌, ◌^◌, ◌<◌, ◌≤◌, [], ◌∷◌, ◌++◌, length, drop, replicate, OnOk, IfOk};
ghost use Rattle.mime_base.specs.Cache.Bytes.{AreCards, Stands, card_bytes, cards};
ghost use Rattle.mime_base.specs.Format.Records.{CardsAt, TextAt};
ghost use Rattle.mime_base.specs.Format.Room.{padded, text_room};
ghost use Rattle.mime_store.specs.Texts.{fits_text};
ghost use Rattle.mime_store.specs.Written.{Grew, Written};

use byteorder::{BigEndian, ByteOrder};
use mime_base::OutOfMemory;

/// Numbers of 32 bits, one after another; returns the offset of the first.
pub fn append_numbers(out: &mut Vec<u8>, numbers: &[u32]) -> Result<u32, OutOfMemory>
    // The bytes stay within what a number of 32 bits can point to.
    requires room { length out.old.items + 4 * length numbers.now < 2 ^ 32 }
    // The header has its place.
    requires begun { 40 ≤ length out.old.items }
    // The bytes grow by four for each number, and what was there stays.
    ensures grew { OnOk result (Grew out.old.items out.new.items (4 * length numbers.now)) }
    // The numbers stand, big-endian, at the offset that is returned.
    ensures stand { IfOk result (λ at. CardsAt (Written out.new.items) at numbers.now) }
{
    let at = place_of(out);
    append_cards(out, numbers)?;
    Ok(at)
}

/// The three numbers of a record; returns the offset of the first. Their bytes are laid ready first, and appended at once.
pub fn append_row(out: &mut Vec<u8>, row: [u32; 3]) -> Result<u32, OutOfMemory>
    // The bytes stay within what a number of 32 bits can point to.
    requires room { length out.old.items + 12 < 2 ^ 32 }
    // The header has its place.
    requires begun { 40 ≤ length out.old.items }
    // The bytes grow by the three numbers, and what was there stays.
    ensures grew { OnOk result (Grew out.old.items out.new.items 12) }
    // The numbers stand, big-endian, at the offset that is returned.
    ensures stand { IfOk result (λ at. CardsAt (Written out.new.items) at row) }
{
    let at = place_of(out);
    let mut bytes = [0; 12];
    overwrite(&mut bytes, &row);
    out.extend_from_slice(&bytes)?;
    Ok(at)
}

/// A count, and the numbers of that many records after it; returns the offset of the count.
pub fn append_list(out: &mut Vec<u8>, count: u32, numbers: &[u32]) -> Result<u32, OutOfMemory>
    // The bytes stay within what a number of 32 bits can point to.
    requires room { length out.old.items + (4 + 4 * length numbers.now) < 2 ^ 32 }
    // The header has its place.
    requires begun { 40 ≤ length out.old.items }
    // The bytes grow by four for the count and for each number, and what was there stays.
    ensures grew { OnOk result (Grew out.old.items out.new.items (4 + 4 * length numbers.now)) }
    // The count stands at the offset that is returned.
    ensures count { IfOk result (λ at. CardsAt (Written out.new.items) at (count ∷ [])) }
    // The numbers stand right after the count.
    ensures numbers { IfOk result (λ at. CardsAt (Written out.new.items) (at + 4) numbers.now) }
{
    let at = place_of(out);
    append_card(out, count)?;
    append_cards(out, numbers)?;
    Ok(at)
}

/// Bytes, and zeros up to a multiple of 4; returns the offset of the bytes.
pub fn append_value(out: &mut Vec<u8>, bytes: &[u8]) -> Result<u32, OutOfMemory>
    // The bytes stay within what a number of 32 bits can point to.
    requires room { length out.old.items + padded (length bytes.now) < 2 ^ 32 }
    // The header has its place.
    requires begun { 40 ≤ length out.old.items }
    // The bytes grow by the value's length, rounded up to a multiple of 4, and what was there stays.
    ensures grew { OnOk result (Grew out.old.items out.new.items (padded (length bytes.now))) }
    // The value stands at the offset that is returned.
    ensures stands { IfOk result (λ at. Written out.new.items at bytes.now) }
{
    let at = place_of(out);
    out.extend_from_slice(bytes)?;
    append_zeros(out, padding(bytes.len()))?;
    Ok(at)
}

/// A text, its zero, and zeros up to a multiple of 4; returns the offset of the text.
pub fn append_text(out: &mut Vec<u8>, text: &[u8]) -> Result<u32, OutOfMemory>
    // The bytes stay within what a number of 32 bits can point to.
    requires room { length out.old.items + text_room text.now < 2 ^ 32 }
    // The header has its place.
    requires begun { 40 ≤ length out.old.items }
    // The text has at most 255 bytes, and none of them is zero.
    requires fits { fits_text text.now ≡ true }
    // The bytes grow by the text and its zero, rounded up to a multiple of 4, and what was there stays.
    ensures grew { OnOk result (Grew out.old.items out.new.items (text_room text.now)) }
    // The text and its zero stand at the offset that is returned.
    ensures stands { IfOk result (λ at. TextAt (Written out.new.items) at text.now) }
{
    let at = place_of(out);
    out.extend_from_slice(text)?;
    append_end(out, padding(text.len() + 1))?;
    Ok(at)
}

/// Numbers of 32 bits in place of the first bytes.
pub fn patch(out: &mut Vec<u8>, numbers: &[u32])
    // There are as many bytes as the numbers take.
    requires { 4 * length numbers.now ≤ length out.old.items }
    // The first bytes are now the numbers, big-endian, and all after them stays.
    ensures after { out.new.items ≡ cards numbers.now ++ drop (4 * length numbers.now) out.old.items }
    // The numbers stand at offset 0.
    ensures stand { CardsAt (Stands out.new.items) 0 numbers.now }
{
    overwrite(out, numbers);
}

/// Zeros.
pub fn append_zeros(out: &mut Vec<u8>, count: usize) -> Result<(), OutOfMemory>
    // Just that many zeros are appended.
    ensures { OnOk result (out.new.items ≡ out.old.items ++ replicate count 0) }
{
    for _ in 0..count {
        out.push(0)?;
    }
    Ok(())
}

/// The zero of a text, and at most three zeros more.
fn append_end(out: &mut Vec<u8>, count: usize) -> Result<(), OutOfMemory>
    requires few { count < 4 }
    requires room { length out.old.items < 2 ^ 33 }
    ensures { OnOk result (out.new.items ≡ out.old.items ++ 0 ∷ replicate count 0) }
{
    let end = out.len() + 1 + count;
    out.extend_from_slice(&[0; 4])?;
    out.truncate(end);
    Ok(())
}

/// How many bytes are missing to a multiple of 4.
pub fn padding(count: usize) -> usize
    // The next multiple of 4 is a number of the machine.
    requires { count < 2 ^ 33 }
    // It is what is missing to the next multiple of 4, which is 0 at one.
    ensures { result ≡ padded count - count }
{
    (4 - count % 4) % 4
}

/// Where the next byte goes.
fn place_of(out: &Vec<u8>) -> u32
    requires { length out.now.items < 2 ^ 32 }
    ensures { result ≡ length out.now.items }
{
    out.len() as u32
}

#[tactic(auto, unfolding(mime_base::specs::Cache::Bytes::card_bytes))]
fn append_card(out: &mut Vec<u8>, number: u32) -> Result<(), OutOfMemory>
    ensures { OnOk result (out.new.items ≡ out.old.items ++ card_bytes number) }
{
    let mut bytes = [0u8; 4];
    BigEndian::write_u32(&mut bytes, number);
    out.extend_from_slice(&bytes)?;
    Ok(())
}

fn append_cards(out: &mut Vec<u8>, numbers: &[u32]) -> Result<(), OutOfMemory>
    requires room { length out.old.items + 4 * length numbers.now < 2 ^ 32 }
    ensures { OnOk result (out.new.items ≡ out.old.items ++ cards numbers.now) }
{
    let start = out.len();
    out.resize(start + 4 * numbers.len(), 0)?;
    overwrite(&mut out[start..], numbers);
    Ok(())
}

#[tactic(auto, unfolding(mime_base::specs::Cache::Bytes::card_bytes))]
fn overwrite(out: &mut [u8], numbers: &[u32])
    requires { 4 * length numbers.now ≤ length out.old }
    ensures after { out.new ≡ cards numbers.now ++ drop (4 * length numbers.now) out.old }
    ensures are { AreCards numbers.now }
{
    BigEndian::write_u32_into(numbers, &mut out[..4 * numbers.len()]);
}
