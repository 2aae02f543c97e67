//! What the text files can spell of a database.
//!
//! What an element of a list keeps is known only of one that is looked at, so the law walks over the rules.

ghost use Rattle.std.specs.Prelude.{◌≡◌, ◌<◌, true, length, All};
ghost use Rattle.mime_base.specs.Database.{plain_database};
ghost use Rattle.mime_base.specs.Database.Limits.{IsWithinLimits, KeepsLimits};
ghost use Rattle.mime_base.specs.Names.{is_pattern};

use crate::database::Database;
use crate::database::rule::GlobRule;

/// The law of limits: each rule of a database, and each line of its magic, is one that the text files
/// can spell. It never allocates.
pub fn database_keeps_limits(database: &Database)
    // Each weight, each pattern's length and each of its bytes fits a byte, and each magic line is an allowed one.
    ensures { IsWithinLimits (plain_database database.now) }
{
    for rule in &database.rules {
        rule_keeps_limits(rule);
    }
}

/// The law of limits for a rule.
fn rule_keeps_limits(rule: &GlobRule)
    ensures { KeepsLimits rule.now }
{
    parts_keep_limits(rule.weight, rule.pattern.bytes());
}

/// The law of limits for the weight and the text of a rule.
fn parts_keep_limits(weight: u8, pattern: &[u8])
    requires pattern { is_pattern pattern.now ≡ true }
    ensures weight { weight < 256 }
    ensures length { length pattern.now < 256 }
    ensures bytes { All (λ b. b < 256) pattern.now }
{}
