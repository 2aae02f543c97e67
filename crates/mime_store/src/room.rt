//! Whether a database fits, before anything is written: each part takes its room from what is left.

ghost use Rattle.std.specs.Prelude.{◌≡◌, ◌+◌, ◌-◌, ◌^◌, ◌<◌, ◌≤◌, nat_eq, length, map, MatchOption};
ghost use Rattle.std.specs.List.{common_prefix_len};
ghost use Rattle.mime_base.specs.Format.Room.{lines_room, mask_room, padded, text_room};
ghost use Rattle.mime_base.specs.Magic.{forest_of, mask_bytes, plain_matchlet, plain_matchlets};
ghost use Rattle.mime_store.specs.SuffixTree.{common, ending_entry, ending_path, ending_room, entries_room, path_before};
ghost use Rattle.mime_store.specs.Lines.{matchlet_parts_room};

use crate::bytes::padding;
use crate::ending::Ending;
use mime_base::Matchlet;

/// The bytes of the header, of all counts and of all heads.
pub const FIXED_ROOM: usize = 88;

/// Room for bytes, padded.
fn take_padded(left: usize, size: usize) -> Option<usize>
    requires { left < 2 ^ 32 }
    ensures { MatchOption result (left < padded size) (λ rest. rest + padded size ≡ left) }
{
    if size > left {
        return None;
    }
    left.checked_sub(size + padding(size))
}

/// Room for a text and its zero, padded.
pub fn take_text(left: usize, text: &[u8]) -> Option<usize>
    // What is left can be pointed to by a number of 32 bits.
    requires { left < 2 ^ 32 }
    // It is what is left after the text, its zero and the padding, or none where they take more.
    ensures { MatchOption result (left < text_room text.now) (λ rest. rest + text_room text.now ≡ left) }
{
    if text.len() >= left {
        return None;
    }
    take_padded(left, text.len() + 1)
}

/// Room for lines and all below them.
#[cycle(rooms)]
pub fn take_lines(left: usize, lines: &[Matchlet]) -> Option<usize>
    // What is left can be pointed to by a number of 32 bits.
    requires { left < 2 ^ 32 }
    // It is what is left after the lines at all depths with their values and masks, or none where they take more.
    ensures { MatchOption result (left < lines_room (forest_of (plain_matchlets lines.now)))
        (λ rest. rest + lines_room (forest_of (plain_matchlets lines.now)) ≡ left) }
{
    let mut rest = left;
    for line in lines {
        rest = take_line(rest, line)?;
    }
    Some(rest)
}

#[cycle(rooms)]
fn take_line(left: usize, line: &Matchlet) -> Option<usize>
    requires { left < 2 ^ 32 }
    ensures { MatchOption result (left < 32 + matchlet_parts_room (plain_matchlet line.now))
        (λ rest. rest + (32 + matchlet_parts_room (plain_matchlet line.now)) ≡ left) }
{
    let left = left.checked_sub(32)?;
    let left = take_padded(left, line.value.len())?;
    let left = take_mask(left, &line.mask)?;
    let rest = take_lines(left, &line.children)?;
    Some(rest)
}

fn take_mask(left: usize, mask: &Option<Vec<u8>>) -> Option<usize>
    requires { left < 2 ^ 32 }
    ensures { MatchOption result (left < mask_room (mask_bytes mask.now))
        (λ rest. rest + mask_room (mask_bytes mask.now) ≡ left) }
{
    match mask {
        None => Some(left),
        Some(mask) => take_padded(left, mask.len()),
    }
}

/// Room for the tree of sorted endings, with the types of its leaves.
pub fn take_tree(left: usize, endings: &[Ending<'_>]) -> Option<usize>
    // What is left can be pointed to by a number of 32 bits.
    requires { left < 2 ^ 32 }
    // It is what is left after the nodes of the tree and the types of its leaves, or none where they take more.
    ensures { MatchOption result (left < entries_room (map (ending_entry 0) endings.now))
        (λ rest. rest + entries_room (map (ending_entry 0) endings.now) ≡ left) }
{
    let mut rest = left;
    let mut before = None;
    for ending in endings {
        rest = take_ending(rest, before, ending)?;
        before = Some(ending);
    }
    Some(rest)
}

/// Room for a leaf, its type, and a node for each byte past what its path shares with the one before.
fn take_ending(left: usize, before: Option<&Ending<'_>>, ending: &Ending<'_>) -> Option<usize>
    requires { left < 2 ^ 32 }
    ensures { MatchOption result (left < ending_room (path_before before.entry) (ending_entry 0 ending.now))
        (λ rest. rest + ending_room (path_before before.entry) (ending_entry 0 ending.now) ≡ left) }
{
    let left = left.checked_sub(12 * nodes_of(before, ending))?;
    take_text(left, ending.rule.kind.bytes())
}

/// How many nodes an ending adds to the one before it, its leaf included.
fn nodes_of(before: Option<&Ending<'_>>, ending: &Ending<'_>) -> usize
    ensures nodes { result ≡ length (ending_path ending.now)
        - common (path_before before.entry) (ending_path ending.now) + 1 }
    ensures few { result ≤ 256 }
{
    let shared = match before {
        Some(before) => agreeing_length(before, ending),
        None => 0,
    };
    ending.length() - shared + 1
}

/// How many bytes two paths share from the front.
fn agreeing_length(left: &Ending<'_>, right: &Ending<'_>) -> usize
    ensures common { result ≡ common_prefix_len nat_eq (ending_path left.now) (ending_path right.now) }
    ensures right { result ≤ length (ending_path right.now) }
{
    let room = left.length().min(right.length());
    for depth in 0..room {
        if left.byte(depth) != right.byte(depth) {
            return depth;
        }
    }
    room
}
