//! How `--escape` writes a FILE and a TYPE. This project's own.

ghost use Rattle.std.specs.Prelude.{◌≡◌, ◌++◌, IfOk, OnOk};
ghost use Rattle.mime_tool.specs.Output.{escaped, escaped_byte, is_escaped, octal};

use std::alloc::{AllocError, Global};

/// Any bytes with each control character and each backslash as a backslash and its number in octal.
pub(crate) fn escaped(alloc: Global, bytes: &[u8]) -> Result<Vec<u8>, AllocError>
    // Each byte is as the table of escaped bytes has it.
    ensures { IfOk result (λ it. it.items ≡ escaped bytes.now) }
{
    let mut escaped = Vec::new(alloc);
    for byte in bytes {
        push_byte(&mut escaped, *byte)?;
    }
    Ok(escaped)
}

fn push_byte(to: &mut Vec<u8>, byte: u8) -> Result<(), AllocError>
    ensures { OnOk result (to.new.items ≡ to.old.items ++ escaped_byte byte) }
{
    if is_escaped(byte) {
        to.extend_from_slice(&octal(byte))
    } else {
        to.extend_from_slice(&[byte])
    }
}

fn is_escaped(byte: u8) -> bool
    ensures { result ≡ is_escaped byte }
{
    byte < 32 || byte == 127 || byte == b'\\'
}

// A backslash and three octal digits.
fn octal(byte: u8) -> [u8; 4]
    ensures { result ≡ octal byte }
{
    [
        b'\\',
        b'0' + byte / 64,
        b'0' + byte / 8 % 8,
        b'0' + byte % 8,
    ]
}
