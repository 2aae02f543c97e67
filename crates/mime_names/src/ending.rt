//! Whether a name ends with a text, compared from the end on.

ghost use Rattle.std.specs.Prelude.{◌≡◌, ◌+◌, ◌<◌, ◌≤◌, ℕ, true, false, length, drop};
ghost use Rattle.mime_base.specs.Matching.Folding.{compared, compared_byte};
ghost use Rattle.mime_base.specs.Matching.Matches.{EndsSo};

use mime_base::{Meter, as_compared};

/// Whether a name ends with a text, by bytes that stand for themselves.
///
/// The meter counts the bytes of the name that are compared.
// Always inlined, as its caller is.
#[inline(always)]
pub fn ends_so(text: &[u8], cased: bool, name: &[u8], meter: &mut Meter) -> bool
    // Then the name's last bytes are compared as the text is.
    ensures so { result ≡ true → (length text.now ≤ length name.now) × EndsSo cased text.now name.now }
    // Else none of its endings is.
    ensures otherwise { result ≡ false → (k : ℕ) → compared cased (drop k name.now) ≡ compared cased text.now → ⊥ }
    // It counts no node.
    ensures nodes { meter.new.nodes ≡ meter.old.nodes }
    // It compares no more bytes than the name has.
    ensures bytes { meter.new.bytes ≤ meter.old.bytes + length name.now }
{
    if name.len() < text.len() {
        return false;
    }
    let start = name.len() - text.len();
    if begins_otherwise(text, cased, name, start) {
        meter.add_bytes(1);
        return false;
    }
    let mut left = text.len();
    while left > 0 {
        left -= 1;
        if !are_alike(cased, text[left], name[start + left]) {
            meter.add_bytes((text.len() - left) as u64);
            return false;
        }
    }
    meter.add_bytes(text.len() as u64);
    true
}

/// Whether two bytes are compared as equal: most that are, are equal.
#[inline]
fn are_alike(cased: bool, left: u8, right: u8) -> bool
    ensures alike { result ≡ true → compared_byte cased left ≡ compared_byte cased right }
    ensures otherwise { result ≡ false → compared_byte cased left ≡ compared_byte cased right → ⊥ }
{
    left == right || as_compared(cased, left) == as_compared(cased, right)
}

/// Whether the first byte of a text is compared as another than that at a place of a name.
// Most texts that are no end of a name differ there: the last bytes led to the rule.
#[inline]
fn begins_otherwise(text: &[u8], cased: bool, name: &[u8], start: usize) -> bool
    requires { start + length text.now ≡ length name.now }
    ensures some { result ≡ true → 0 < length text.now }
    ensures otherwise { result ≡ true → (k : ℕ) → compared cased (drop k name.now) ≡ compared cased text.now → ⊥ }
{
    text.len() > 0 && !are_alike(cased, text[0], name[start])
}
