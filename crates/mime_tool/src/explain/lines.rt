//! The lines of a FILE.

ghost use Rattle.std.specs.Prelude.{◌≡◌, [], ◌++◌, ℕ, IfOk, IfSome, List, OnOk, Some, drop, map, option_map};
ghost use Rattle.std.specs.List.{flat_map};
ghost use Rattle.mime_base.specs.Database.Lent.{plain_rule};
ghost use Rattle.mime_load.specs.Lent.{plain_pairs};
ghost use Rattle.mime_lookup.specs.Cached.{IsCacheText};
ghost use Rattle.mime_view.specs.Magic.{plain_found};
ghost use Rattle.mime_tool.specs.Explain.{IsExplained, alias_mark, by_line, cased_mark, glob_line, glob_lines, kept_mark, magic_line};
ghost use Rattle.mime_tool.specs.Explain.{rule_lines, section_in, section_line};
ghost use Rattle.mime_tool.specs.ExplainSteps.{AreMatches, IsDecision, IsReady, bytes_of, database_of};
ghost use Rattle.mime_tool.specs.Output.{type_line, written};
ghost use Rattle.mime_tool.specs.Run.{printed};

use super::Explaining;
use super::aliases::{is_same, kinds_of, unalias};
use super::content::{section_of, sniffed_as};
use super::decision::{DecidedBy, Decision, Seen, decide};
use super::rules::{Matches, matches_of};
use crate::line::{answer_end, escaped, name_for, separator};
use mime_base::{LentRule, OutOfMemory};
use mime_load::LentPair;
use mime_lookup::{Order, by_bytes};
use mime_request::Output;
use std::alloc::{AllocError, Global};

/// The lines of a file of which this is the front, if its content is looked at.
pub(super) fn explanation(
    alloc: Global,
    explaining: Explaining<'_, '_, '_>,
    file: &[u8],
    front: Option<&[u8]>,
) -> Result<Vec<u8>, OutOfMemory>
    // The lists were read back of the bytes.
    requires ready { IsReady explaining }
    // They are those over the database that was read back, for the front as the whole content.
    ensures { IfOk result (λ lines. IsExplained (database_of explaining.entry) explaining.entry.output explaining.entry.order
        (bytes_of front.entry) file.now (printed lines.items)) }
{
    let name = name_for(explaining.order, file);
    let matches = matches_of(alloc, explaining, name)?;
    let section = section_of(explaining, front);
    let decision = decision_of(alloc, explaining, &matches, section, front)?;
    let mut lines = Vec::new(alloc);
    push_type(alloc, &mut lines, explaining.output, file, decision.kind)?;
    push_reasons(alloc, &mut lines, explaining, &matches, section, front)?;
    lines.extend_from_slice(by_line(decision.by))?;
    Ok(lines)
}

// The type of the file, and what decided it.
fn decision_of<'l, 'b: 'l>(
    alloc: Global,
    explaining: Explaining<'_, 'l, 'b>,
    matches: &Matches<'l>,
    section: Option<(&'b [u8], u32)>,
    front: Option<&[u8]>,
) -> Result<Decision<'l>, OutOfMemory>
    requires ready { IsReady explaining }
    requires section { plain_found section ≡ section_in (database_of explaining) (bytes_of front) }
    requires text { IfSome section (λ it. IsCacheText explaining.bytes.now it.0.now) }
    ensures { (name : List ℕ) → AreMatches (database_of explaining.entry) name matches.now
        → IfOk result (IsDecision (database_of explaining.entry) name (bytes_of front.entry) explaining.entry.order) }
{
    let aliases = explaining.lists.aliases.as_slice();
    let kept = kinds_of(alloc, aliases, matches.kept.as_slice())?;
    let candidates = kinds_of(alloc, aliases, matches.candidates.as_slice())?;
    let seen = Seen {
        kept: kept.as_slice(),
        candidates: candidates.as_slice(),
        priority: priority_of(section),
        sniffed: sniffed_as(explaining, section, front),
        is_read: front.is_some(),
    };
    decide(alloc, explaining, seen)
}

fn priority_of(section: Option<(&[u8], u32)>) -> Option<u32>
    ensures { result ≡ option_map (λ section. section.1) (plain_found section.entry) }
{
    match section {
        Some((_, priority)) => Some(priority),
        None => None,
    }
}

// Puts the lines of the rules that match and of the section that holds behind others.
fn push_reasons(
    alloc: Global,
    lines: &mut Vec<u8>,
    explaining: Explaining<'_, '_, '_>,
    matches: &Matches<'_>,
    section: Option<(&[u8], u32)>,
    front: Option<&[u8]>,
) -> Result<(), AllocError>
    ensures { (name : List ℕ) → AreMatches (database_of explaining.entry) name matches.now → OnOk result (lines.new.items ≡ lines.old.items
        ++ (glob_lines explaining.entry.output (database_of explaining.entry) explaining.entry.order name
        ++ magic_line explaining.entry.output (database_of explaining.entry).aliases (plain_found section.entry) (bytes_of front.entry))) }
{
    let (output, aliases) = (explaining.output, explaining.lists.aliases.as_slice());
    push_matches(alloc, lines, explaining.order, output, aliases, matches)?;
    push_magic(alloc, lines, output, aliases, section, front)
}

// Puts the line of the type behind others.
fn push_type(
    alloc: Global,
    lines: &mut Vec<u8>,
    output: Output,
    file: &[u8],
    kind: &[u8],
) -> Result<(), AllocError>
    ensures { OnOk result (lines.new.items ≡ lines.old.items ++ type_line output file.now kind.now []) }
{
    let file = written(alloc, output, file)?;
    let kind = written(alloc, output, kind)?;
    if output.brief {
        push(lines, &[kind.as_slice(), answer_end(output)])
    } else {
        push(
            lines,
            &[
                file.as_slice(),
                separator(output),
                kind.as_slice(),
                answer_end(output),
            ],
        )
    }
}

// Puts the lines of the rules that match behind others, unless the content alone is asked.
fn push_matches(
    alloc: Global,
    lines: &mut Vec<u8>,
    order: Order,
    output: Output,
    aliases: &[LentPair<'_>],
    matches: &Matches<'_>,
) -> Result<(), AllocError>
    ensures { OnOk result (lines.new.items ≡ lines.old.items ++ rule_lines output (plain_pairs aliases.now) order
        (map plain_rule matches.now.kept.items) (map plain_rule matches.now.candidates.items)) }
{
    match order {
        Order::ContentOnly => Ok(()),
        Order::GlobsFirst | Order::MagicFirst | Order::AllGlobs => {
            let kept = matches.kept.as_slice();
            push_rules(alloc, lines, output, aliases, true, kept, 0)?;
            push_rules(
                alloc,
                lines,
                output,
                aliases,
                false,
                matches.candidates.as_slice(),
                kept.len(),
            )
        }
    }
}

// Puts the lines of the rules from a place on behind others.
fn push_rules(
    alloc: Global,
    lines: &mut Vec<u8>,
    output: Output,
    aliases: &[LentPair<'_>],
    kept: bool,
    rules: &[LentRule<'_>],
    from: usize,
) -> Result<(), AllocError>
    ensures { OnOk result (lines.new.items ≡ lines.old.items
        ++ flat_map (glob_line output (plain_pairs aliases.now) kept) (drop from (map plain_rule rules.now))) }
{
    for place in from..rules.len() {
        push_rule(alloc, lines, output, aliases, kept, rules[place])?;
    }
    Ok(())
}

fn push_rule(
    alloc: Global,
    lines: &mut Vec<u8>,
    output: Output,
    aliases: &[LentPair<'_>],
    kept: bool,
    rule: LentRule<'_>,
) -> Result<(), AllocError>
    ensures { OnOk result (lines.new.items ≡ lines.old.items ++ glob_line output (plain_pairs aliases.now) kept (plain_rule rule.entry)) }
{
    let LentRule {
        weight,
        kind,
        pattern,
        cased,
    } = rule;
    let weight = format!(in alloc; "{weight}")?;
    let pattern = written(alloc, output, pattern)?;
    let other = alias_mark(alloc, output, aliases, kind)?;
    let kind = written(alloc, output, kind)?;
    let (pattern, kind, other) = (pattern.as_slice(), kind.as_slice(), other.as_slice());
    push(
        lines,
        &[
            b"  glob ",
            weight.as_bytes(),
            b" ",
            pattern,
            b" ",
            kind,
            cased_mark(cased),
            kept_mark(kept),
            other,
            b"\n",
        ],
    )
}

// Puts the line of magic behind others, if a content was looked at.
fn push_magic(
    alloc: Global,
    lines: &mut Vec<u8>,
    output: Output,
    aliases: &[LentPair<'_>],
    section: Option<(&[u8], u32)>,
    front: Option<&[u8]>,
) -> Result<(), AllocError>
    ensures { OnOk result (lines.new.items ≡ lines.old.items
        ++ magic_line output (plain_pairs aliases.now) (plain_found section.entry) (bytes_of front.entry)) }
{
    match (front, section) {
        (None, _) => Ok(()),
        (Some(front), None) => push(lines, &[b"  magic none ", by_bytes(front), b"\n"]),
        (Some(_), Some((kind, priority))) => {
            push_section(alloc, lines, output, aliases, kind, priority)
        }
    }
}

fn push_section(
    alloc: Global,
    lines: &mut Vec<u8>,
    output: Output,
    aliases: &[LentPair<'_>],
    kind: &[u8],
    priority: u32,
) -> Result<(), AllocError>
    ensures { (content : List ℕ) → OnOk result (lines.new.items ≡ lines.old.items
        ++ section_line output (plain_pairs aliases.now) (Some (kind.entry.now, priority)) content) }
{
    let priority = format!(in alloc; "{priority}")?;
    let other = alias_mark(alloc, output, aliases, kind)?;
    let kind = written(alloc, output, kind)?;
    let (kind, other) = (kind.as_slice(), other.as_slice());
    push(
        lines,
        &[b"  magic ", priority.as_bytes(), b" ", kind, other, b"\n"],
    )
}

// What stands behind a type of which the alias step gives another.
fn alias_mark(
    alloc: Global,
    output: Output,
    aliases: &[LentPair<'_>],
    kind: &[u8],
) -> Result<Vec<u8>, AllocError>
    ensures { IfOk result (λ mark. mark.items ≡ alias_mark output (plain_pairs aliases.now) kind.now) }
{
    let other = unalias(aliases, kind);
    let mut mark = Vec::new(alloc);
    if !is_same(other, kind) {
        let other = written(alloc, output, other)?;
        push(&mut mark, &[b" -> ", other.as_slice()])?;
    }
    Ok(mark)
}

fn cased_mark(cased: bool) -> &'static [u8]
    ensures { result.now ≡ cased_mark cased }
{
    if cased { b" cs" } else { b"" }
}

fn kept_mark(kept: bool) -> &'static [u8]
    ensures { result.now ≡ kept_mark kept }
{
    if kept { b" kept" } else { b"" }
}

fn by_line(by: DecidedBy) -> &'static [u8]
    ensures { result.now ≡ by_line by }
{
    match by {
        DecidedBy::Name => b"  by name\n",
        DecidedBy::Content => b"  by content\n",
        DecidedBy::Both => b"  by both\n",
        DecidedBy::Default => b"  by default\n",
    }
}

// A text as it is to be written.
fn written(alloc: Global, output: Output, text: &[u8]) -> Result<Vec<u8>, AllocError>
    ensures { IfOk result (λ it. it.items ≡ written output text.now) }
{
    if output.escape {
        escaped(alloc, text)
    } else {
        let mut copy = Vec::new(alloc);
        copy.extend_from_slice(text)?;
        Ok(copy)
    }
}

// Puts pieces behind a text.
fn push(text: &mut Vec<u8>, pieces: &[&[u8]]) -> Result<(), AllocError>
    ensures { OnOk result (text.new.items ≡ text.old.items ++ flat_map (λ piece. piece.now) pieces.now) }
{
    for piece in pieces {
        text.extend_from_slice(*piece)?;
    }
    Ok(())
}
