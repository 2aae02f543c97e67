//! Files of lines, and what is said of their malformed lines.

ghost use Rattle.std.specs.Prelude.{◌≡◌, ℕ, Bool, List, IfOk, refl};
ghost use Rattle.std.specs.List.{flat_map};
ghost use Rattle.mime_base.specs.Database.PlainPairs.{plain_icons, plain_pairs};
ghost use Rattle.mime_text.specs.Lines.{skipped_of};
ghost use Rattle.mime_text.specs.Lines.Globs2.{is_malformed_rule};
ghost use Rattle.mime_text.specs.Lines.Icons.{is_malformed_icon};
ghost use Rattle.mime_text.specs.Lines.Pairs.{is_malformed_pair};
ghost use Rattle.mime_tool.specs.Desk.{Does, Works};
ghost use Rattle.mime_tool.specs.Directories.{AreGlobs, AreIcons, AreFileLines, AreLinesAt, ArePairs, ignored, path_of};
ghost use Rattle.mime_tool.specs.Loading.{Loads};
ghost use Rattle.mime_tool.specs.Run.{said};

use super::path_of;
use crate::desk::Desk;
use crate::stop::Stop;
use mime_base::OutOfMemory;
use mime_text::{GlobsFile, IconsFile, PairsFile, read_globs2, read_icons, read_pairs};
use std::alloc::Global;

/// A file of lines of a data directory, as it was parsed.
pub(super) trait LineFile: Drop {
    // What it says, as a plain value.
    ghost Plain: { Type 0 };

    ghost plain: { Self → Self.Plain };

    // The numbers of its malformed lines.
    ghost numbers: { Self → List ℕ };

    // What a text spells.
    ghost Spells: { List ℕ → Self.Plain → Type 0 };

    // Whether a line is malformed.
    ghost is_malformed: { List ℕ → Bool };

    fn parse(alloc: Global, text: &[u8]) -> Result<Self, OutOfMemory>
        ensures spells { IfOk result (λ file. Spells text.now (plain file)) }
        ensures skipped { IfOk result (λ file. numbers file ≡ skipped_of is_malformed text.now) };

    fn skipped(&self) -> &[u64]
        ensures { result.now ≡ numbers self.now };

    // Each text spells something.
    ghost total: { (text : List ℕ) → (value : Self.Plain) × Spells text value };
}

/// Reads a file of lines of a directory. Its malformed lines are reported.
pub(super) fn read_lines<D: Desk, T: LineFile>(
    desk: &mut D,
    directory: &str,
    name: &str,
) -> Result<T, Stop>
    // They are the lines of the stored file, none where there is no file.
    ensures { Works (Loads T.plain (AreLinesAt T.Spells T.is_malformed (D.state desk.old).stored
        (path_of directory.now name.now))) (D.state desk.old) (D.state desk.new) result }
{
    let path = path_of(desk.alloc(), directory, name)?;
    read_lines_at(desk, path.as_str())
}

fn read_lines_at<D: Desk, T: LineFile>(desk: &mut D, path: &str) -> Result<T, Stop>
    ensures { Works (Loads T.plain
        (AreLinesAt T.Spells T.is_malformed (D.state desk.old).stored path.now))
        (D.state desk.old) (D.state desk.new) result }
{
    let text = desk.read_text(path)?;
    parse_lines(desk, path, text.as_slice())
}

fn parse_lines<D: Desk, T: LineFile>(desk: &mut D, path: &str, text: &[u8]) -> Result<T, Stop>
    ensures { Works (Loads T.plain (AreFileLines T.Spells T.is_malformed path.now text.now))
        (D.state desk.old) (D.state desk.new) result }
{
    let file = T::parse(desk.alloc(), text)?;
    report_ignored(desk, path, file.skipped())?;
    Ok(file)
}

fn report_ignored<D: Desk>(desk: &mut D, path: &str, numbers: &[u64]) -> Result<(), Stop>
    ensures { Works (Does (said (flat_map (ignored path.now) numbers.now)))
        (D.state desk.old) (D.state desk.new) result }
{
    for number in numbers {
        report_line(desk, path, *number)?;
    }
    Ok(())
}

fn report_line<D: Desk>(desk: &mut D, path: &str, number: u64) -> Result<(), Stop>
    ensures { Works (Does (said (ignored path.now number)))
        (D.state desk.old) (D.state desk.new) result }
{
    let text = format!(in desk.alloc(); "mimelook: {path}: line {number} ignored\n")?;
    desk.complain(text.as_bytes())
}

impl LineFile for GlobsFile {
    ghost use Rattle.mime_base.specs.declared.database.rule.GlobRule.{GlobRule};
    ghost use Rattle.mime_text.specs.Lines.Globs2.{markers_of, rules_of};

    ghost Plain = { List GlobRule × List (List ℕ) };

    ghost plain = { λ file. (file.rules.items, file.deleted.items) };

    ghost numbers = { λ file. file.skipped.items };

    ghost Spells = { AreGlobs };

    ghost is_malformed = { is_malformed_rule };

    fn parse(alloc: Global, text: &[u8]) -> Result<GlobsFile, OutOfMemory> {
        read_globs2(alloc, text)
    }

    fn skipped(&self) -> &[u64] {
        self.skipped.as_slice()
    }

    ghost total = { λ text. ((rules_of text, markers_of text), (refl, λ kind. (λ is. is, λ is. is))) };
}

impl LineFile for PairsFile {
    ghost use Rattle.mime_text.specs.Lines.Pairs.{pairs_in};

    ghost Plain = { List (List ℕ × List ℕ) };

    ghost plain = { λ file. plain_pairs file.pairs.items };

    ghost numbers = { λ file. file.skipped.items };

    ghost Spells = { ArePairs };

    ghost is_malformed = { is_malformed_pair };

    fn parse(alloc: Global, text: &[u8]) -> Result<PairsFile, OutOfMemory> {
        read_pairs(alloc, text)
    }

    fn skipped(&self) -> &[u64] {
        self.skipped.as_slice()
    }

    ghost total = { λ text. (plain_pairs (pairs_in text), refl) };
}

impl LineFile for IconsFile {
    ghost use Rattle.mime_text.specs.Lines.Icons.{icons_in};

    ghost Plain = { List (List ℕ × List ℕ) };

    ghost plain = { λ file. plain_icons file.icons.items };

    ghost numbers = { λ file. file.skipped.items };

    ghost Spells = { AreIcons };

    ghost is_malformed = { is_malformed_icon };

    fn parse(alloc: Global, text: &[u8]) -> Result<IconsFile, OutOfMemory> {
        read_icons(alloc, text)
    }

    fn skipped(&self) -> &[u64] {
        self.skipped.as_slice()
    }

    ghost total = { λ text. (plain_icons (icons_in text), refl) };
}
