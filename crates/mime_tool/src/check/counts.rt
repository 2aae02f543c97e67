//! How many there are of each list that was read back.

ghost use Rattle.std.specs.Prelude.{◌≡◌, length};
ghost use Rattle.mime_base.specs.Format.Packed.{matchlet_count};
ghost use Rattle.mime_load.specs.Lent.{plain_lists, plain_magic};
ghost use Rattle.mime_tool.specs.Check.{IsFew, counts_of};

use mime_load::{LentMagic, Lists};

/// How many there are.
#[derive(Clone, Copy)]
pub(crate) struct Counts {
    /// The rules of the three lists.
    pub(crate) rules: u64,
    /// The aliases.
    pub(crate) aliases: u64,
    /// The types with one of their parents.
    pub(crate) subclasses: u64,
    /// The sections of magic.
    pub(crate) sections: u64,
    /// Their lines, at all depths.
    pub(crate) lines: u64,
    /// The types with their icons.
    pub(crate) icons: u64,
    /// The types with their generic icons.
    pub(crate) generic_icons: u64,
}

/// How many there are of each list.
pub(crate) fn counts_of(lists: &Lists<'_>) -> Counts
    // There are fewer of each than a number holds.
    requires few { IsFew (plain_lists lists.now) }
    // They are the lengths of the lists.
    ensures { result ≡ counts_of (plain_lists lists.now) }
{
    Counts {
        rules: rule_count_of(lists),
        aliases: lists.aliases.len() as u64,
        subclasses: lists.parents.len() as u64,
        sections: lists.magic.sections.len() as u64,
        lines: line_count_of(&lists.magic),
        icons: lists.icons.len() as u64,
        generic_icons: lists.generic_icons.len() as u64,
    }
}

// How many rules the three lists have.
fn rule_count_of(lists: &Lists<'_>) -> u64
    requires few { IsFew (plain_lists lists.now) }
    ensures { result ≡ length (plain_lists lists.now).rules }
{
    let literals = lists.literals.len() as u64;
    let leaves = lists.leaves.len() as u64;
    let globs = lists.globs.len() as u64;
    literals.saturating_add(leaves).saturating_add(globs)
}

// How many lines all sections have, at all depths.
fn line_count_of(magic: &LentMagic<'_>) -> u64
    ensures { result ≡ matchlet_count (plain_magic magic.now) }
{
    let mut count = 0;
    for section in &magic.sections {
        count += section.lines.min(magic.lines.len() - count);
    }
    count as u64
}
