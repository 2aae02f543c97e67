//! What a lookup is answered from.

pub mod icon;
pub mod lent;
pub mod limits;
pub mod pair;
pub mod rule;

ghost use Rattle.std.specs.Prelude.{◌≡◌, [], true};
ghost use Rattle.mime_base.specs.Magic.{are_allowed_sections, FallByPriority, plain_sections};
ghost use Rattle.mime_base.specs.Database.PlainPairs.{are_distinct_pairs, have_distinct_names, plain_icons, plain_pairs};

use crate::database::icon::Icon;
use crate::database::pair::Pair;
use crate::database::rule::GlobRule;
use crate::magic::Section;
use std::alloc::Global;

/// What merged data directories say ("Directory layout").
///
/// Each list is in merged order: by directory, the most preferred first, and by line. The type keeps
/// what merging gives: each alias has one type, each type one icon, no subclass pair stands twice,
/// sections stand by falling priority, and each of their lines is one that `magic` can spell.
#[derive(Debug, Drop)]
pub struct Database {
    /// The glob rules.
    pub rules: Vec<GlobRule>,
    /// The aliases, each with its type.
    pub aliases: Vec<Pair>,
    /// The types that have a parent, each with one of its parents.
    pub parents: Vec<Pair>,
    /// The sections of `magic`, the highest priority first; of equal priority in merged order.
    pub sections: Vec<Section>,
    /// The icons of types.
    pub icons: Vec<Icon>,
    /// The icons that stand for many types of a kind.
    pub generic_icons: Vec<Icon>,
    /// Each alias stands once.
    pub ghost aliases_once: { have_distinct_names (plain_pairs aliases.items) ≡ true },
    /// Each subclass pair stands once.
    pub ghost parents_once: { are_distinct_pairs (plain_pairs parents.items) ≡ true },
    /// No section has a higher priority than the one before it.
    pub ghost by_priority: { FallByPriority (plain_sections sections.items) },
    /// Each line is one that `magic` can spell.
    pub ghost allowed: { are_allowed_sections (plain_sections sections.items) ≡ true },
    /// Each type has one icon.
    pub ghost icons_once: { have_distinct_names (plain_icons icons.items) ≡ true },
    /// Each type has one generic icon.
    pub ghost generic_icons_once: { have_distinct_names (plain_icons generic_icons.items) ≡ true },
}

impl Database {
    /// A database of glob rules alone.
    pub fn of_rules(alloc: Global, rules: Vec<GlobRule>) -> Database
        // The rules are those that were given, in their order.
        ensures rules { result.rules.items ≡ rules.items }
        // There is no alias.
        ensures aliases { result.aliases.items ≡ [] }
        // There is no pair of a type and its parent.
        ensures parents { result.parents.items ≡ [] }
        // There is no magic.
        ensures sections { result.sections.items ≡ [] }
        // There is no icon.
        ensures icons { result.icons.items ≡ [] }
        // There is no generic icon.
        ensures generic_icons { result.generic_icons.items ≡ [] }
    {
        Database {
            rules,
            aliases: Vec::new(alloc),
            parents: Vec::new(alloc),
            sections: Vec::new(alloc),
            icons: Vec::new(alloc),
            generic_icons: Vec::new(alloc),
        }
    }
}
