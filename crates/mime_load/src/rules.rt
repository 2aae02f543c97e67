//! The literal list and the glob list.

ghost use Rattle.std.specs.Prelude.{◌≡◌, ◌==◌, ◌<◌, ◌≤◌, ◌^◌, ◌+◌, ◌-◌, ◌*◌, ◌%◌, true, false, All, List, length, get_or, IfErr, IfOk};
ghost use Rattle.std.specs.List.{list_all};
ghost use Rattle.mime_base.specs.Cache.Bytes.{Stands};
ghost use Rattle.mime_base.specs.Database.Limits.{KeepsLimits};
ghost use Rattle.mime_base.specs.Format.Rules.{IsRule};
ghost use Rattle.mime_base.specs.Format.Sorted.{text_lt};
ghost use Rattle.mime_base.specs.Format.Stored.{is_in_globs, is_in_literals};
ghost use Rattle.mime_base.specs.Matching.Folding.{compared_byte};
ghost use Rattle.mime_base.specs.declared.database.lent.LentRule.{LentRule};
ghost use Rattle.mime_base.specs.declared.database.rule.GlobRule.{GlobRule};
ghost use Rattle.mime_base.specs.Database.Lent.{plain_rule};
ghost use Rattle.mime_load.specs.Lent.{plain_rules};
ghost use Rattle.mime_load.specs.Parts.{IsGlobList, IsLiteralList, IsStoredRule, RecordAt};
ghost use Rattle.mime_load.specs.Taking.{TakesOnlyRecords};

use crate::order::text_lt;
use crate::reading::{read_count, read_numbers, read_text};
use crate::source::Source;
use crate::taking::{Taking, take_records};
use crate::unread::Unread;
use mime_base::{Class, LentRule, as_compared, class_of_bytes};

/// How many bytes the record of a rule has.
const RULE: u64 = 12;

/// The rules of the literal list at `at`, sorted by their patterns ("The mime.cache files"). Their records are taken.
pub fn literals_at<'a>(
    source: &Source<'_, 'a>,
    at: u32,
    taking: &mut Taking,
) -> Result<Vec<LentRule<'a>>, Unread>
    // A list of these rules stands there, and they keep their limits.
    ensures stand { IfOk result (λ rules. IsLiteralList source.now.counted.now at (plain_rules rules.items)) }
    // Of rules that stand there, and with room for them, only memory can be short.
    ensures need { (rules : List GlobRule) → IsLiteralList source.now.counted.now at rules → 12 * length rules ≤ taking.old.records →
        IfErr result (λ e. e ≡ Unread.OutOfMemory) }
    // They take twelve bytes each.
    ensures taken { IfOk result (λ rules. taking.new.records + 12 * length rules.items ≡ taking.old.records) }
    // No room of values is taken, and one record is visited besides.
    ensures takes { TakesOnlyRecords 1 0 taking.old taking.new }
{
    let start = u64::from(at);
    let count = read_count(source, start, RULE, taking)?;
    let mut rules = Vec::with_capacity(source.alloc, count as usize)?;
    for i in 0..count {
        let rule = read_rule(source, start + 4 + 12 * u64::from(i), taking)?;
        if !is_in_literals(&rule) || !comes_next(&rules, &rule) {
            return Err(Unread::NotSpelled);
        }
        rules.push(rule)?;
    }
    Ok(rules)
}

/// The rules of the glob list at `at`, in its order ("The mime.cache files"). Their records are taken.
pub fn globs_at<'a>(
    source: &Source<'_, 'a>,
    at: u32,
    taking: &mut Taking,
) -> Result<Vec<LentRule<'a>>, Unread>
    // A list of these rules stands there, and they keep their limits.
    ensures stand { IfOk result (λ rules. IsGlobList source.now.counted.now at (plain_rules rules.items)) }
    // Of rules that stand there, and with room for them, only memory can be short.
    ensures need { (rules : List GlobRule) → IsGlobList source.now.counted.now at rules → 12 * length rules ≤ taking.old.records →
        IfErr result (λ e. e ≡ Unread.OutOfMemory) }
    // They take twelve bytes each.
    ensures taken { IfOk result (λ rules. taking.new.records + 12 * length rules.items ≡ taking.old.records) }
    // No room of values is taken, and one record is visited besides.
    ensures takes { TakesOnlyRecords 1 0 taking.old taking.new }
{
    let start = u64::from(at);
    let count = read_count(source, start, RULE, taking)?;
    let mut rules = Vec::with_capacity(source.alloc, count as usize)?;
    for i in 0..count {
        let rule = read_rule(source, start + 4 + 12 * u64::from(i), taking)?;
        if !is_in_globs(&rule) {
            return Err(Unread::NotSpelled);
        }
        rules.push(rule)?;
    }
    Ok(rules)
}

/// Whether the rule belongs to the literal list.
fn is_in_literals(rule: &LentRule<'_>) -> bool
    ensures { result ≡ is_in_literals (plain_rule rule.now) }
{
    match class_of_bytes(rule.pattern) {
        Class::Literal => true,
        Class::Suffix => false,
        Class::Full => false,
    }
}

/// Whether the rule belongs to the glob list.
fn is_in_globs(rule: &LentRule<'_>) -> bool
    ensures { result ≡ is_in_globs (plain_rule rule.now) }
{
    match class_of_bytes(rule.pattern) {
        Class::Literal => false,
        Class::Suffix => rule.pattern.len() == 1,
        Class::Full => true,
    }
}

/// Whether the pattern of a rule is not before that of the last of others.
fn comes_next(rules: &[LentRule<'_>], rule: &LentRule<'_>) -> bool
    ensures rises { result ≡ true → (d : LentRule) → 0 < length rules.now →
        text_lt rule.now.pattern.now (get_or rules.now (length rules.now - 1) d).pattern.now ≡ false }
    ensures falls { result ≡ false → (d : LentRule) → (0 < length rules.now) ×
        (text_lt rule.now.pattern.now (get_or rules.now (length rules.now - 1) d).pattern.now ≡ true) }
{
    match rules.last() {
        Some(last) => !text_lt(rule.pattern, last.pattern),
        None => true,
    }
}

/// The rule at `at`, whose record is taken.
fn read_rule<'a>(
    source: &Source<'_, 'a>,
    at: u64,
    taking: &mut Taking,
) -> Result<LentRule<'a>, Unread>
    ensures stands { IfOk result (λ rule. IsStoredRule source.now.counted.now at (plain_rule rule)) }
    ensures need { (rule : GlobRule) → RecordAt (Stands source.now.counted.now) (IsRule (Stands source.now.counted.now)) at rule →
        KeepsLimits rule →
        12 ≤ taking.old.records → IfErr result (λ e. e ≡ Unread.OutOfMemory) }
    ensures taken { IfOk result (λ rule. taking.new.records + 12 ≡ taking.old.records) }
    ensures takes { TakesOnlyRecords 0 0 taking.old taking.new }
{
    take_records(RULE, taking)?;
    let numbers = read_numbers::<3>(source, at, taking)?;
    let [text, kind, flags] = numbers;
    let pattern = read_text(source, text, taking)?;
    let kind = read_text(source, kind, taking)?;
    let cased = 256 <= flags;
    if 512 <= flags || !is_as_compared(cased, pattern) {
        return Err(Unread::NotSpelled);
    }
    are_bytes(pattern);
    Ok(LentRule {
        weight: (flags % 256) as u8,
        kind,
        pattern,
        cased,
    })
}

/// Whether a text is what is compared of it: folded, unless it is case-sensitive.
pub fn is_as_compared(cased: bool, text: &[u8]) -> bool
    // It is so where each byte is the byte that is compared for it.
    ensures test { result ≡ list_all (λ b. compared_byte cased b == b) text.now }
{
    text.iter().all(|byte| as_compared(cased, *byte) == *byte)
}

/// The law of bytes: each is below 256.
pub fn are_bytes(text: &[u8])
    // They are bytes.
    ensures { All (λ b. b < 256) text.now }
{}
