//! Whether a database fits, as far as a bound says, without memory and without an order.
//!
//! Two things alone are not counted one by one: a rule takes room in whichever list it may stand, a node for each byte of its
//! ending among it, and each pair of a type and a parent takes an entry and a text for its type. So no database takes more than
//! its bound, and most that are not near a limit need no other count.

ghost use Rattle.std.specs.Prelude.{◌≡◌, ◌+◌, ◌^◌, ◌<◌, ◌≤◌, sum_by, true, IfSome};
ghost use Rattle.mime_base.specs.Database.{plain_database};
ghost use Rattle.mime_base.specs.Database.PlainPairs.{plain_icons, plain_pairs};
ghost use Rattle.mime_base.specs.Format.Room.{pairs_room, room, rules_room, text_room, tree_room};
ghost use Rattle.mime_base.specs.Format.Stored.{glob_rules, literal_rules};

use crate::list::take_list;
use crate::room::{FIXED_ROOM, take_text};
use mime_base::{Database, GlobRule, Icon, Pair};

/// Whether a bound of what a database takes is at most the limit.
pub fn is_bounded(limit: usize, database: &Database) -> bool
    // What is within the limit can be pointed to by a number of 32 bits.
    requires { limit < 2 ^ 32 }
    // Where it is, the database takes at most the limit.
    ensures { result ≡ true → room (plain_database database.now) ≤ limit }
{
    take_bound(limit, database).is_some()
}

fn take_bound(left: usize, database: &Database) -> Option<usize>
    requires { left < 2 ^ 32 }
    ensures { IfSome result (λ rest. rest + room (plain_database database.now) ≤ left) }
{
    let left = left.checked_sub(FIXED_ROOM)?;
    let left = take_pairs(left, 8, &database.aliases)?;
    let left = take_pairs(left, 16, &database.parents)?;
    let left = take_rules(left, &database.rules)?;
    let left = take_list(left, &database.sections)?;
    let left = take_icons(left, &database.icons)?;
    let rest = take_icons(left, &database.generic_icons)?;
    Some(rest)
}

/// Room for pairs: for each its two texts, and what is fixed.
fn take_pairs(left: usize, fixed: usize, pairs: &[Pair]) -> Option<usize>
    requires { left < 2 ^ 32 }
    ensures { IfSome result (λ rest. rest
        + sum_by (λ pair. fixed + (text_room pair.0 + text_room pair.1)) (plain_pairs pairs.now) ≡ left) }
{
    let mut rest = left;
    for pair in pairs {
        rest = take_texts(rest, fixed, pair.name.bytes(), pair.target.bytes())?;
    }
    Some(rest)
}

/// Room for icons: for each its entry and its two texts.
fn take_icons(left: usize, icons: &[Icon]) -> Option<usize>
    requires { left < 2 ^ 32 }
    ensures { IfSome result (λ rest. rest + pairs_room (plain_icons icons.now) ≡ left) }
{
    let mut rest = left;
    for icon in icons {
        rest = take_texts(rest, 8, icon.kind.bytes(), icon.name.bytes())?;
    }
    Some(rest)
}

/// Room for rules, in whichever list each stands.
fn take_rules(left: usize, rules: &[GlobRule]) -> Option<usize>
    requires { left < 2 ^ 32 }
    ensures { IfSome result (λ rest. rest + (rules_room (literal_rules rules.now) + tree_room rules.now
        + rules_room (glob_rules rules.now)) ≤ left) }
{
    let mut rest = left;
    for rule in rules {
        let pattern = rule.pattern.bytes();
        rest = take_texts(rest, 12 + 12 * pattern.len(), pattern, rule.kind.bytes())?;
    }
    Some(rest)
}

fn take_texts(left: usize, fixed: usize, first: &[u8], second: &[u8]) -> Option<usize>
    requires { left < 2 ^ 32 }
    ensures { IfSome result (λ rest. rest + (fixed + (text_room first.now + text_room second.now)) ≡ left) }
{
    let left = left.checked_sub(fixed)?;
    let left = take_text(left, first)?;
    let rest = take_text(left, second)?;
    Some(rest)
}
