//! The lines of a section as a forest, by their indents.
//!
//! The entries are taken from the last to the first. A stack holds those of them that are no deeper
//! than any before, the nearest on top, and an entry takes the deeper ones off it as its children.
//! So the work is linear, no byte is copied, and nothing recurses. All sections of a text use one stack.

ghost use Rattle.std.specs.Prelude.{◌≡◌, ◌∷◌, [], IfOk, MatchOption, OnOk, nat_lt, true};
ghost use Rattle.mime_base.specs.Magic.{forest_of, plain_matchlets};
ghost use Rattle.mime_text.specs.Magic.Entries.{plain_entries, plain_role};
ghost use Rattle.mime_text.specs.Magic.Forest.{deeper, forest, kept_matchlets, others, stack, plain_root, matchlet_of};

use super::entry::{MagicEntry, Role};
use mime_base::Matchlet;
use std::alloc::{AllocError, Global};

/// An entry that is no deeper than any before it, and its matchlet if the line is kept.
#[derive(Debug, Drop)]
pub struct Root {
    indent: u32,
    matchlet: Option<Matchlet>,
}

fn is_deeper(root: &Root, indent: u32) -> bool
    ensures { result ≡ nat_lt indent root.now.indent }
{
    root.indent > indent
}

/// The nearest root, if it is deeper.
fn pop_deeper(roots: &mut Vec<Root>, indent: u32) -> Option<Root>
    ensures { let old = stack roots.old.items in let new = stack roots.new.items in
        MatchOption result
        ((deeper indent old ≡ []) × (others indent old ≡ new))
        (λ r. (old ≡ plain_root r ∷ new) × (nat_lt indent r.indent ≡ true)) }
{
    match roots.last() {
        Some(last) if is_deeper(last, indent) => roots.pop(),
        _ => None,
    }
}

/// Takes the roots that are deeper off the stack, and gives their matchlets.
fn take_deeper(
    alloc: Global,
    roots: &mut Vec<Root>,
    indent: u32,
) -> Result<Vec<Matchlet>, AllocError>
    ensures taken { IfOk result (λ v.
        plain_matchlets v.items ≡ kept_matchlets (deeper indent (stack roots.old.items))) }
    ensures left { OnOk result (stack roots.new.items ≡ others indent (stack roots.old.items)) }
{
    let mut children = Vec::new(alloc);
    while let Some(root) = pop_deeper(roots, indent) {
        if let Some(matchlet) = root.matchlet {
            children.push(matchlet)?;
        }
    }
    Ok(children)
}

/// The entry as a root over its children.
fn root_over(entry: MagicEntry, children: Vec<Matchlet>) -> Root
    ensures { plain_root result ≡ record {
      indent = entry.indent;
      matchlet = matchlet_of (plain_role entry.role) (forest_of (plain_matchlets children.items));
    } }
{
    let indent = entry.indent;
    match entry.role {
        Role::Kept(line) => {
            let matchlet = Matchlet {
                start: line.start,
                range: line.range,
                word: line.word,
                value: line.value,
                mask: line.mask,
                children,
            };
            Root {
                indent,
                matchlet: Some(matchlet),
            }
        }
        Role::Ignored | Role::Marker => Root {
            indent,
            matchlet: None,
        },
    }
}

/// Takes all roots off the stack, and gives their matchlets.
fn matchlets(alloc: Global, roots: &mut Vec<Root>) -> Result<Vec<Matchlet>, AllocError>
    ensures taken { IfOk result (λ v. plain_matchlets v.items ≡ kept_matchlets (stack roots.old.items)) }
    ensures left { OnOk result (roots.new.items ≡ []) }
{
    let mut matchlets = Vec::new(alloc);
    while let Some(root) = roots.pop() {
        if let Some(matchlet) = root.matchlet {
            matchlets.push(matchlet)?;
        }
    }
    Ok(matchlets)
}

/// The forest of the entries. The stack is handed in empty, and is empty after it, so that the sections of a text share one.
#[tactic(auto, unfolding(crate::specs::Magic::Forest::forest))]
pub fn grow(
    alloc: Global,
    roots: &mut Vec<Root>,
    entries: Vec<MagicEntry>,
) -> Result<Vec<Matchlet>, AllocError>
    // No root of other entries is on the stack.
    requires { roots.old.items ≡ [] }
    // Each entry has the run of deeper entries after it as its children.
    ensures grown { IfOk result (λ v. forest_of (plain_matchlets v.items) ≡ forest (plain_entries entries.items)) }
    // No root is left on the stack.
    ensures left { OnOk result (roots.new.items ≡ []) }
{
    let mut entries = entries;
    while let Some(entry) = entries.pop() {
        let children = take_deeper(alloc, roots, entry.indent)?;
        roots.push(root_over(entry, children))?;
    }
    matchlets(alloc, roots)
}
