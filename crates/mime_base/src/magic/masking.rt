//! Windows of bytes against magic values, under a mask and in a host's order ("The magic files").

ghost use Rattle.std.specs.Prelude.{◌≡◌, ◌+◌, ◌^◌, ◌<◌, ◌≤◌, ◌==◌, length, slice_index_or};
ghost use Rattle.mime_base.specs.Magic.Masking.{equal_bytes, group_of, window_equals};
ghost use Rattle.mime_base.specs.Magic.Mirrored.{mirrored};

use crate::magic::host::Host;

/// How many bytes from the front of a window are equal to a value, both under a mask.
///
/// On a little-endian host each group of `word` bytes of value and mask is reversed, if `word` is 2
/// or 4 and divides the value. Past the mask's end all bits count.
pub fn equal_bytes(value: &[u8], mask: &[u8], word: u32, host: Host, window: &[u8]) -> usize
    // The window has as many bytes as the value.
    requires { length window.now ≡ length value.now }
    // It is how many bytes agree under the mask before the first that differs.
    ensures equal { result ≡ equal_bytes value.now mask.now word host window.now }
    // All of them agree exactly where the window equals the value.
    ensures all { (result == length window.now) ≡ window_equals value.now mask.now word host window.now }
    // It is no more than the window's length.
    ensures limit { result ≤ length window.now }
{
    let group = group_of(word, host, value.len());
    for i in 0..window.len() {
        let place = mirrored(i, group);
        let bits = kept_bits(mask, place);
        if window[i] & bits != value[place] & bits {
            return i;
        }
    }
    window.len()
}

/// How many bytes are a group that is reversed.
pub fn group_of(word: u32, host: Host, size: usize) -> usize
    // Words of 2 or 4 bytes that divide the value are reversed on a little-endian host; else a group is one byte.
    ensures { result ≡ group_of word host size }
{
    match host {
        Host::Little if word == 2 && size % 2 == 0 => 2,
        Host::Little if word == 4 && size % 4 == 0 => 4,
        _ => 1,
    }
}

/// Where a byte stood before its group was reversed.
fn mirrored(i: usize, group: usize) -> usize
    requires { i + 4 < 2 ^ 64 }
    ensures { result ≡ mirrored group i }
{
    match group {
        2 => i + 1 - 2 * (i % 2),
        4 => i + 3 - 2 * (i % 4),
        _ => i,
    }
}

/// The bits that a mask keeps of a byte.
fn kept_bits(mask: &[u8], place: usize) -> u8
    ensures { result ≡ slice_index_or mask.now place 255 }
{
    if place < mask.len() {
        mask[place]
    } else {
        0xff
    }
}
