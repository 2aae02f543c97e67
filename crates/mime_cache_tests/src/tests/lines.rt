//! Rules as lines of `globs2`.

use std::alloc::AllocError;

/// Adds the line of a rule.
pub fn add_rule(
    lines: &mut Vec<u8>,
    weight: u8,
    kind: &[u8],
    pattern: &[u8],
    cased: bool,
) -> Result<(), AllocError> {
    let weight = format!(in *lines.allocator(); "{weight}")?;
    lines.extend_from_slice(weight.as_bytes())?;
    lines.extend_from_slice(b":")?;
    lines.extend_from_slice(kind)?;
    lines.extend_from_slice(b":")?;
    lines.extend_from_slice(pattern)?;
    lines.extend_from_slice(if cased { b":cs\n" } else { b"\n" })
}
