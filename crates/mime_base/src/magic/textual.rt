//! Whether a content looks like text ("Recommended checking order").

ghost use Rattle.std.specs.Prelude.{◌≡◌};
ghost use Rattle.mime_base.specs.Magic.Textual.{is_control, looks_textual};

/// How many bytes of a content decide whether it looks like text. No lookup wants fewer.
pub const TEXTUAL_FRONT: u32 = 128;

/// Whether no control byte is among the first 128 bytes of a content, so that it is likely text.
///
/// A control byte is one below 32 except tab, newline and carriage return. The public specification
/// asks for a test of the first bytes; which bytes count, and how many, is this project's own. It
/// never allocates.
#[tactic(auto, unfolding(crate::specs::Magic::Textual::looks_textual))]
pub fn looks_textual(content: &[u8]) -> bool
    // It is true exactly where each control byte among the first 128 bytes is a tab, a newline or a carriage return.
    ensures { result ≡ looks_textual content.now }
{
    let front = &content[..(TEXTUAL_FRONT as usize).min(content.len())];
    !front.iter().any(|byte| is_control(*byte))
}

/// Whether a byte has no place in a text.
fn is_control(byte: u8) -> bool
    ensures { result ≡ is_control byte }
{
    byte < 32 && !matches!(byte, b'\t' | b'\n' | b'\r')
}
