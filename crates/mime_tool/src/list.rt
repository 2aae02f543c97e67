//! The command `list`: the glob rules of a cache.
//!
//! The order and the form of the lines are this project's own.

ghost use Rattle.std.specs.Prelude.{◌≡◌, ◌++◌, IfErr, IfOk, [], codes, map};
ghost use Rattle.std.specs.List.{flat_map};
ghost use Rattle.mime_base.specs.Database.{PlainDatabase};
ghost use Rattle.mime_base.specs.Format.Packed.{Packed};
ghost use Rattle.mime_base.specs.Format.Spells.{Spells};
ghost use Rattle.mime_view.specs.Listing.{plain_listed};
ghost use Rattle.mime_request.specs.Request.{plain_source};
ghost use Rattle.mime_tool.specs.Cache.{GivesOrRefuses};
ghost use Rattle.mime_tool.specs.Desk.{Does, EndsOverFiles, Works};
ghost use Rattle.mime_tool.specs.Environment.{known_environment};
ghost use Rattle.mime_tool.specs.List.{AreRulesOf, HasListedRules, IsList, IsListOver, IsUnlisted};
ghost use Rattle.mime_tool.specs.List.{RefusesRules, cased_mark, rule_line};
ghost use Rattle.mime_tool.specs.Run.{printed};

use crate::cache::faulty;
use crate::desk::Desk;
use crate::environment::Environment;
use crate::sources::{path_of, read_source};
use crate::status::ANSWERED;
use crate::stop::Stop;
use mime_base::{Counted, Meter};
use mime_request::Source;
use mime_view::{Budget, Cache, CacheFault, Listed};
use std::alloc::Global;

/// Prints a line `WEIGHT:TYPE:PATTERN` for each glob rule of a cache, and `:cs` after one that is
/// case-sensitive, and gives the status. Where the cache is refused nothing is printed.
pub(crate) fn list<D: Desk>(
    desk: &mut D,
    environment: Option<Environment<'_>>,
    source: &Source<'_>,
) -> Result<u8, Stop>
    // It prints the rules of the stored cache in its order, or says what is wrong with it.
    ensures { Works (EndsOverFiles (IsList (D.state desk.old).stored (known_environment environment.entry) (plain_source source.now)) [])
        (D.state desk.old) (D.state desk.new) result }
{
    let cache = read_source(desk, environment, source)?;
    list_cache(desk, path_of(source), cache.as_slice())
}

fn list_cache<D: Desk>(desk: &mut D, path: &str, cache: &[u8]) -> Result<u8, Stop>
    ensures { Works (EndsOverFiles (IsListOver path.now cache.now) [])
        (D.state desk.old) (D.state desk.new) result }
{
    let rules = rules_or_stop(desk.alloc(), path, cache)?;
    print_rules(desk, rules.as_slice())?;
    Ok(ANSWERED)
}

fn rules_or_stop<'a>(alloc: Global, path: &str, cache: &'a [u8]) -> Result<Vec<Listed<'a>>, Stop>
    ensures { GivesOrRefuses path.now (RefusesRules cache.entry.now)
        (λ rules. AreRulesOf cache.entry.now (map plain_listed rules.items)) result }
{
    match rules_of(alloc, cache) {
        Ok(rules) => Ok(rules),
        Err(fault) => Err(faulty(alloc, path, fault)),
    }
}

fn rules_of<'a>(alloc: Global, cache: &'a [u8]) -> Result<Vec<Listed<'a>>, CacheFault>
    ensures answer { IfOk result (λ rules. AreRulesOf cache.entry.now (map plain_listed rules.items)) }
    ensures need { (b : PlainDatabase) → HasListedRules b → Spells cache.entry.now b →
        Packed cache.entry.now b → IfErr result (λ e. e ≡ CacheFault.OutOfMemory) }
    ensures fault { IfErr result (IsUnlisted cache.entry.now) }
{
    let mut meter = Meter::new();
    let cache = Cache::open(Counted::new(cache), &mut meter)?;
    let mut budget = Budget::of(&cache);
    cache.rules(alloc, &mut meter, &mut budget)
}

fn print_rules<D: Desk>(desk: &mut D, rules: &[Listed<'_>]) -> Result<(), Stop>
    ensures { Works (Does (printed (flat_map (λ rule. rule_line (plain_listed rule)) rules.now)))
        (D.state desk.old) (D.state desk.new) result }
{
    for rule in rules {
        print_rule(desk, rule)?;
    }
    Ok(())
}

fn print_rule<D: Desk>(desk: &mut D, rule: &Listed<'_>) -> Result<(), Stop>
    ensures { Works (Does (printed (rule_line (plain_listed rule.now))))
        (D.state desk.old) (D.state desk.new) result }
{
    let kind = rule.kind;
    let pattern = rule.pattern.as_slice();
    print_line(desk, rule.weight, kind, pattern, rule.cased)
}

fn print_line<D: Desk>(
    desk: &mut D,
    weight: u8,
    kind: &[u8],
    pattern: &[u8],
    cased: bool,
) -> Result<(), Stop>
    ensures { Works (Does (printed (rule_line (record {
      weight = weight;
      kind = kind.now;
      pattern = pattern.now;
      cased = cased;
    })))) (D.state desk.old) (D.state desk.new) result }
{
    let weight = format!(in desk.alloc(); "{weight}")?;
    print_pieces(desk, weight.as_bytes(), kind, pattern, cased_mark(cased))
}

fn print_pieces<D: Desk>(
    desk: &mut D,
    weight: &[u8],
    kind: &[u8],
    pattern: &[u8],
    mark: &[u8],
) -> Result<(), Stop>
    ensures { Works (Does (printed (weight.now ++ (codes ":" ++ (kind.now ++ (codes ":"
        ++ (pattern.now ++ (mark.now ++ codes "\n"))))))))
        (D.state desk.old) (D.state desk.new) result }
{
    desk.print(&[weight, b":", kind, b":", pattern, mark, b"\n"])
}

fn cased_mark(cased: bool) -> &'static [u8]
    ensures { result.now ≡ cased_mark cased }
{
    if cased { b":cs" } else { b"" }
}
