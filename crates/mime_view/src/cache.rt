//! A cache whose header was read ("The mime.cache files").

ghost use Rattle.std.specs.Prelude.{◌≡◌, true, false, ℕ, ◌+◌, ◌*◌, ◌≤◌, List, All, length, map, ⊤};
ghost use Rattle.std.specs.Prelude.{IfErr, IfOk, IfSome, IsOkAnd, MatchResult, OnOk};
ghost use Rattle.mime_base.specs.Cache.Bytes.{Stands, field};
ghost use Rattle.mime_base.specs.Database.Limits.{KeepsLimits};
ghost use Rattle.mime_base.specs.Database.Subclass.{resolved};
ghost use Rattle.mime_base.specs.Format.Header.{HeaderAt, Offsets};
ghost use Rattle.mime_base.specs.Format.Magic.{MagicAt};
ghost use Rattle.mime_base.specs.Format.Pairs.{PairsAt};
ghost use Rattle.mime_base.specs.Format.Parents.{ParentsAt};
ghost use Rattle.mime_base.specs.Meter.{raised};
ghost use Rattle.mime_base.specs.Magic.{PlainSection, are_allowed_sections};
ghost use Rattle.mime_base.specs.declared.database.rule.GlobRule.{GlobRule};
ghost use Rattle.mime_view.specs.Globs.{globs_listed};
ghost use Rattle.mime_view.specs.Asked.{AsksLines};
ghost use Rattle.mime_view.specs.Magic.{AnswersMagic, IsMagicFault, IsMagicLine, LiesMagic, NamesText, magic_price};
ghost use Rattle.mime_base.specs.Magic.Extent.{sections_extent};
ghost use Rattle.mime_view.specs.Lists.{IsHeadFault, LiesHead};
ghost use Rattle.mime_view.specs.NameHits.{AreHits, GivesHits, GivesTexts, IsHitsFault, LieLists, SpellsRules, lists_of};
ghost use Rattle.mime_view.specs.RuleHits.{AreRuleHits, gives_types};
ghost use Rattle.mime_view.specs.Pairs.{GivesSecondName, GivesUnaliased, LooksUp};
ghost use Rattle.mime_view.specs.Parents.{GivesParents, TakesOrStops};
ghost use Rattle.mime_view.specs.Spending.{Gives, Looks, Pays, SpendsOnName, per_record, spending_of};
ghost use Rattle.mime_view.specs.Opening.{IsOpenFault, Opens};
ghost use Rattle.mime_view.specs.Walked.{WalksMagic};
ghost use Rattle.mime_view.specs.Listing.{IsListed, IsListing, listing_records, plain_listed};
ghost use Rattle.mime_view.specs.Listing.Faults.{IsListingFault};
ghost use Rattle.mime_view.specs.Listing.Sources.{IsRuleOf};
ghost use Rattle.mime_view.specs.Listing.Walks.{LieRules};

use crate::budget::Budget;
use crate::fault::CacheFault;
use crate::hits::Case;
use crate::list::count_at;
use crate::magic::{MagicQuery, sniff};
use crate::marks::Marks;
use crate::name::{RuleLists, glob_hits, rule_hits};
use crate::name_hits::{NameHits, Which};
use crate::pairs::look_up_pair;
use crate::parents::{Parents, parents_of};
use crate::query::Query;
use crate::rule_hits::RuleHits;
use crate::rules::{Listed, ListingSource, list_rules};
use crate::spending::Spending;
use mime_base::{Counted, Host, LARGEST_CACHE, Meter, NotedContent};
use std::alloc::Global;
use std::marker::Model;

/// The fewest bytes of a cache: its header.
const HEADER: u64 = 40;

/// A cache of version 1.2 ("The mime.cache files").
///
/// ```
/// let mut meter = Meter::new();
/// let cache = Cache::open(Counted::new(bytes), &mut meter)?;
/// let mut budget = Budget::of(&cache);
/// assert_eq!(rt; cache.unalias(b"t/h", &mut meter, &mut budget), Ok(b"t/g" as &[u8]));
/// ```
///
/// Only the header is checked. Names that its calls give borrow from the cache's bytes.
#[derive(Drop)]
pub struct Cache<'a> {
    counted: Counted<'a>,
    header: [u32; 10],
}

impl<'a> Model for Cache<'a> {
    ghost use Rattle.std.specs.Prelude.{◌≡◌, ℕ, List};
    ghost use Rattle.mime_base.specs.Cache.Bytes.{fields};
    ghost use Rattle.mime_view.specs.Opening.{Opens};

    ghost Value = { List ℕ };

    ghost view = { λ cache. cache.counted };

    ghost invariant = { λ cache. (cache.header ≡ fields cache.counted 0 10) × Opens cache.counted };
}

impl<'a> Cache<'a> {
    /// Reads the header of a cache.
    ///
    /// It adds one node where there are 40 bytes. It never allocates.
    ///
    /// # Errors
    ///
    /// [`CacheFault::Truncated`] below 40 bytes, else [`CacheFault::Version`] unless it is 1.2, else
    /// [`CacheFault::TooLarge`] above 268,435,456 bytes.
    pub fn open(counted: Counted<'a>, meter: &mut Meter) -> Result<Cache<'a>, CacheFault>
        // It opens a cache of version 1.2 that is neither too short nor too long; else the first thing that is wrong is the fault.
        ensures opened { MatchResult result
            (λ cache. (cache ≡ counted.entry) × Opens counted.entry) (IsOpenFault counted.entry) }
        // For an answer the header is counted as one record.
        ensures counted { OnOk result (meter.new.nodes ≡ raised meter.old.nodes 1) }
        // Before a fault it is counted at most once.
        ensures nodes { meter.new.nodes ≤ meter.old.nodes + 1 }
        // The count of records never falls.
        ensures rises { meter.old.nodes ≤ meter.new.nodes }
        // It compares nothing.
        ensures bytes { meter.new.bytes ≡ meter.old.bytes }
    {
        let length = counted.length();
        if length < HEADER {
            return Err(CacheFault::Truncated);
        }
        let header = counted.cards::<10>(0, meter)?;
        let [version, ..] = header;
        let major = (version / 65_536) as u16;
        let minor = (version % 65_536) as u16;
        if (major, minor) != (1, 2) {
            return Err(CacheFault::Version(major, minor));
        }
        if length > LARGEST_CACHE as u64 {
            return Err(CacheFault::TooLarge);
        }
        Ok(Cache { counted, header })
    }

    /// How many entries the glob list has, where all of it lies in the cache.
    pub fn glob_count(&self, meter: &mut Meter) -> Option<u64>
        // It is the number that the list states, and an entry has twelve bytes.
        ensures count { IfSome result (λ count. (count ≡ globs_listed self.now) × (12 * count ≤ length self.now)) }
        // It visits one record, and compares nothing.
        ensures cost { Looks 1 0 meter.old meter.new }
    {
        count_at(&self.counted, u64::from(self.header[5]), 12, meter).ok()
    }

    /// How many bytes the cache has. It adds nothing.
    pub fn length(&self) -> u64
        // The number of the bytes that were handed to `open`.
        ensures { result ≡ length self.now }
    {
        self.counted.length()
    }

    /// The types of the glob rules that are kept for a name, in merged order, or of all that match it, by
    /// falling rank, each as the cache has it: an alias is not resolved ("Recommended checking order").
    ///
    /// The name has at most 4,096 bytes. Each entry or leaf that is scanned takes a record of the budget, two
    /// where one search serves both cases. No more types are given than records were taken.
    ///
    /// # Errors
    ///
    /// [`CacheFault::OutOfRange`] with the offset of a list of rules, of the tree or of a block of siblings
    /// where not all of it lies in the cache; the fault of a text that is compared, matched or given;
    /// [`CacheFault::Spent`] where no record is left; [`CacheFault::OutOfMemory`].
    pub fn glob_hits(
        &self,
        alloc: Global,
        name: &[u8],
        which: Which,
        meter: &mut Meter,
        budget: &mut Budget,
    ) -> Result<NameHits<'a>, CacheFault>
        // A name has no more bytes.
        requires short { length name.now ≤ 4096 }
        // Where these rules stand, it gives the types of those that are asked for, and takes no more records than they need.
        ensures gives { (rules : List GlobRule) → SpellsRules self.now rules →
            GivesHits (AreHits which) name.now rules budget.old budget.new result }
        // Whatever the bytes are, each type is a text of the cache, and was paid for by a record.
        ensures texts { GivesTexts self.now (spending_of meter.old budget.old) (spending_of meter.new budget.new) result }
        // For an answer the three lists lie in the cache.
        ensures inside { OnOk result (LieLists self.now (lists_of self.now) name.now) }
        // Why nothing is said of the name.
        ensures fault { IfErr result (IsHitsFault self.now (lists_of self.now) name.now budget.new) }
        // A record costs as in the glob list, and the text of a type; the halving comes besides, for both cases.
        ensures cost { SpendsOnName name.now 3 (spending_of meter.old budget.old) (spending_of meter.new budget.new) }
    {
        let query = Query {
            counted: &self.counted,
            key: name,
            case: Case::Both,
        };
        let mut spending = Spending {
            meter: *meter,
            budget: *budget,
        };
        let hits = glob_hits(alloc, &query, which, self.rule_lists(), &mut spending);
        *meter = spending.meter;
        *budget = spending.budget;
        hits
    }

    /// All glob rules that match a name, by falling rank, each with its type as the cache has it, its weight and its flag,
    /// and how many of these are kept ("Recommended checking order").
    ///
    /// They are the candidates of [`Cache::glob_hits`], with its limit, its records and its errors, and take memory each.
    pub fn rule_hits(
        &self,
        alloc: Global,
        name: &[u8],
        meter: &mut Meter,
        budget: &mut Budget,
    ) -> Result<RuleHits<'a>, CacheFault>
        // A name has no more bytes.
        requires short { length name.now ≤ 4096 }
        // Where these rules stand, it gives those that match, and takes no more records than they need.
        ensures gives { (rules : List GlobRule) → SpellsRules self.now rules →
            GivesHits AreRuleHits name.now rules budget.old budget.new result }
        // Whatever the bytes are, each type is a text of the cache, and was paid for by a record.
        ensures texts { GivesTexts self.now (spending_of meter.old budget.old) (spending_of meter.new budget.new)
            (gives_types result) }
        // For an answer the three lists lie in the cache.
        ensures inside { OnOk result (LieLists self.now (lists_of self.now) name.now) }
        // Why nothing is said of the name.
        ensures fault { IfErr result (IsHitsFault self.now (lists_of self.now) name.now budget.new) }
        // A record costs as in the glob list, and the text of a type; the halving comes besides, for both cases.
        ensures cost { SpendsOnName name.now 3 (spending_of meter.old budget.old) (spending_of meter.new budget.new) }
    {
        let query = Query {
            counted: &self.counted,
            key: name,
            case: Case::Both,
        };
        let mut spending = Spending {
            meter: *meter,
            budget: *budget,
        };
        let hits = rule_hits(alloc, &query, self.rule_lists(), &mut spending);
        *meter = spending.meter;
        *budget = spending.budget;
        hits
    }

    /// Where the three lists of rules stand.
    fn rule_lists(&self) -> RuleLists
        // The header names them.
        ensures { result ≡ lists_of self.now }
    {
        RuleLists {
            literals: self.header[3],
            tree: self.header[4],
            globs: self.header[5],
        }
    }

    /// The type that an alias stands for, or the name itself where it is no alias ("Directory layout").
    ///
    /// It never allocates, and takes nothing of the budget.
    pub fn unalias(
        &self,
        kind: &'a [u8],
        meter: &mut Meter,
        budget: &mut Budget,
    ) -> Result<&'a [u8], CacheFault>
        // Where the alias list stands, it gives the type that the name stands for, or the name.
        ensures answer { (offsets : Offsets) (pairs : List (List ℕ × List ℕ)) → HeaderAt (Stands self.now) offsets →
            PairsAt (Stands self.now) offsets.aliases pairs → IsOkAnd result (λ name. name.now ≡ resolved pairs kind.now) }
        // On any bytes it gives the name or a text of the cache, or the list or a text that it names does not stand.
        ensures given { GivesUnaliased self.now (field self.now 0 1) kind.now result }
        // It takes nothing of the budget.
        ensures budget { budget.new ≡ budget.old }
        // It visits at most 29 records, and compares at most a text for each.
        ensures cost { Looks 29 (256 * 29) meter.old meter.new }
    {
        let _ = budget;
        let name = look_up_pair(&self.counted, u64::from(self.header[1]), kind, meter)?;
        match name {
            Some(name) => Ok(name),
            None => Ok(kind),
        }
    }

    /// The name of a type's icon, where the cache has one ("The mime.cache files").
    ///
    /// It never allocates, and takes nothing of the budget.
    pub fn icon(
        &self,
        kind: &[u8],
        meter: &mut Meter,
        budget: &mut Budget,
    ) -> Result<Option<&'a [u8]>, CacheFault>
        // Where the icon list stands, it gives the name that the list has for the type, if it has one.
        ensures answer { (offsets : Offsets) (icons : List (List ℕ × List ℕ)) → HeaderAt (Stands self.now) offsets →
            PairsAt (Stands self.now) offsets.icons icons → LooksUp kind.now icons result }
        // On any bytes what it gives is a text of the cache, or the list or a text that it names does not stand.
        ensures given { GivesSecondName self.now (field self.now 0 8) result }
        // It takes nothing of the budget.
        ensures budget { budget.new ≡ budget.old }
        // It visits at most 29 records, and compares at most a text for each.
        ensures cost { Looks 29 (256 * 29) meter.old meter.new }
    {
        let _ = budget;
        let name = look_up_pair(&self.counted, u64::from(self.header[8]), kind, meter)?;
        Ok(name)
    }

    /// The name of the icon that stands for a type and those like it, where the cache has one ("The
    /// mime.cache files").
    ///
    /// It never allocates, and takes nothing of the budget.
    pub fn generic_icon(
        &self,
        kind: &[u8],
        meter: &mut Meter,
        budget: &mut Budget,
    ) -> Result<Option<&'a [u8]>, CacheFault>
        // Where the list of generic icons stands, it gives the name that the list has for the type, if it has one.
        ensures answer { (offsets : Offsets) (icons : List (List ℕ × List ℕ)) → HeaderAt (Stands self.now) offsets →
            PairsAt (Stands self.now) offsets.generic_icons icons → LooksUp kind.now icons result }
        // On any bytes what it gives is a text of the cache, or the list or a text that it names does not stand.
        ensures given { GivesSecondName self.now (field self.now 0 9) result }
        // It takes nothing of the budget.
        ensures budget { budget.new ≡ budget.old }
        // It visits at most 29 records, and compares at most a text for each.
        ensures cost { Looks 29 (256 * 29) meter.old meter.new }
    {
        let _ = budget;
        let name = look_up_pair(&self.counted, u64::from(self.header[9]), kind, meter)?;
        Ok(name)
    }

    /// The parents of a type, with the place of its entry, where the type has a parent ("The mime.cache files").
    ///
    /// An entry that is marked gives no types and takes no record. Any other is marked by the answer. Each
    /// of its parents takes a record of the budget before its number and its text are read.
    ///
    /// # Errors
    ///
    /// [`CacheFault::OutOfRange`] with the offset of the parent list, or of the entry's parents, where not all
    /// of it lies in the cache; the fault of a text that is compared or given; [`CacheFault::Spent`] where a
    /// parent has no record left; [`CacheFault::OutOfMemory`]. The marks are as they were.
    pub fn parents_of(
        &self,
        alloc: Global,
        kind: &[u8],
        marks: &mut Marks,
        meter: &mut Meter,
        budget: &mut Budget,
    ) -> Result<Option<Parents<'a>>, CacheFault>
        // Where the parent list stands, it gives the type's entry with its parents, none if it is marked; each takes a record.
        ensures answer { (offsets : Offsets) (pairs : List (List ℕ × List ℕ)) → HeaderAt (Stands self.now) offsets →
            (stand : ParentsAt (Stands self.now) offsets.parents pairs) → GivesParents self.now (field self.now 0 2) pairs
            stand.kinds marks.old kind.now (spending_of meter.old budget.old) (spending_of meter.new budget.new) result }
        // On any bytes an entry that is found is the type's, and is marked then, or nothing is given and the marks stay.
        ensures taken { TakesOrStops self.now (field self.now 0 2) kind.now
            (spending_of meter.old budget.old) (spending_of meter.new budget.new) marks.old marks.new result }
        // A record that is taken costs one node and one text; at most 29 nodes and 27 texts come besides.
        ensures cost { Pays (per_record 256) 29 (256 * 27) meter.old meter.new budget.old budget.new }
    {
        let at = u64::from(self.header[2]);
        let mut spending = Spending {
            meter: *meter,
            budget: *budget,
        };
        let found = parents_of(alloc, &self.counted, at, kind, marks, &mut spending);
        *meter = spending.meter;
        *budget = spending.budget;
        found
    }

    /// The type and the priority of the first section of magic with a line of indent 0 that holds for a
    /// content, where there is one ("The magic files").
    ///
    /// Each section and each line takes a record of the budget, and each line then as many value bytes as its
    /// value has. It never allocates.
    ///
    /// # Errors
    ///
    /// [`CacheFault::OutOfRange`] with the offset of the magic list, of sections, of lines, or of a value or a
    /// mask that is compared, where not all of it lies in the cache; the fault of the section's type;
    /// [`CacheFault::Spent`]; [`CacheFault::TooDeep`] where a line of the 64th level holds by itself and has
    /// children.
    pub fn sniff(
        &self,
        content: &[u8],
        host: Host,
        meter: &mut Meter,
        budget: &mut Budget,
    ) -> Result<Option<(&'a [u8], u32)>, CacheFault>
        // Where magic stands, it gives the type and the priority of the first section that holds, if one does, takes no more than
        // a record for each section and line, and the bytes of their values, and counts just the bytes that it compared.
        ensures answers { (offsets : Offsets) (sections : List PlainSection) → HeaderAt (Stands self.now) offsets →
            are_allowed_sections sections ≡ true → MagicAt (Stands self.now) offsets.magic sections →
            AnswersMagic content.now host ⊤ sections (spending_of meter.old budget.old) (spending_of meter.new budget.new) result }
        // On any bytes an answer means that the list lies in the cache.
        ensures inside { OnOk result (LiesMagic self.now (field self.now 0 6)) }
        // Its type is a text of the cache.
        ensures text { IfOk result (NamesText self.now) }
        // On any bytes it answers by the records: of the first section that holds, and each before it fails. What it walked lies in the cache.
        ensures walked { IfOk result (WalksMagic self.now content.now host (field self.now 0 6)) }
        // A fault is one of the list, of a section or a line, or the budget is spent.
        ensures fault { IfErr result (IsMagicFault self.now (field self.now 0 6) content.now host budget.new) }
        // A record costs one node and one text, a value byte one comparison for each place of the content; one node comes besides.
        ensures cost { Pays (magic_price (length content.now)) 1 0 meter.old meter.new budget.old budget.new }
        // It took just the value bytes stated by the lines that it asked.
        ensures asked { AsksLines self.now (IsMagicLine self.now (field self.now 0 6)) budget.old budget.new }
    {
        let query = MagicQuery {
            counted: &self.counted,
            content: NotedContent::new(content),
            host,
        };
        let mut spending = Spending {
            meter: *meter,
            budget: *budget,
        };
        let found = sniff(&query, self.header[6], &mut spending);
        *meter = spending.meter;
        *budget = spending.budget;
        found
    }

    /// How much of a content the lines of magic can look at, as the cache states it, in bytes ("The
    /// mime.cache files").
    ///
    /// It never allocates, and takes nothing of the budget.
    pub fn extent(&self, meter: &mut Meter, budget: &mut Budget) -> Result<u32, CacheFault>
        // Where magic stands, it gives how far into a content its lines can look.
        ensures answer { (offsets : Offsets) (sections : List PlainSection) → HeaderAt (Stands self.now) offsets →
            MagicAt (Stands self.now) offsets.magic sections → IsOkAnd result (λ extent. extent ≡ sections_extent sections) }
        // On any bytes it gives the number that stands there.
        ensures stated { IfOk result (λ extent. extent ≡ field self.now (field self.now 0 6) 1) }
        // An answer means that the head of the list lies in the cache.
        ensures inside { OnOk result (LiesHead self.now (field self.now 0 6) 12) }
        // The only fault is that it does not.
        ensures fault { IfErr result (IsHeadFault self.now (field self.now 0 6) 12) }
        // It takes nothing of the budget.
        ensures budget { budget.new ≡ budget.old }
        // It visits one record, and compares nothing.
        ensures cost { Looks 1 0 meter.old meter.new }
    {
        let _ = budget;
        let [_, extent, _] = self.counted.cards::<3>(u64::from(self.header[6]), meter)?;
        Ok(extent)
    }

    /// All glob rules: those of the literal list, then those of the suffix tree, then those of the glob
    /// list ("The mime.cache files").
    ///
    /// The tree is walked depth first. Leaves among its roots, and what is below a character above 255, are
    /// skipped: no name leads there. Each entry of a list and each node of the tree, a leaf or not, takes
    /// a record of the budget before it is read. The memory is for the list and the patterns.
    ///
    /// # Errors
    ///
    /// [`CacheFault::OutOfRange`] with the offset of a list or of the tree, or with that of the nodes below a
    /// character, where not all of it lies in the cache; the fault of a rule's text or type;
    /// [`CacheFault::Spent`]; [`CacheFault::TooDeep`] where more than 254 characters follow one another;
    /// [`CacheFault::OutOfMemory`].
    pub fn rules(
        &self,
        alloc: Global,
        meter: &mut Meter,
        budget: &mut Budget,
    ) -> Result<Vec<Listed<'a>>, CacheFault>
        // Where these rules stand, it lists each once, by its stored text, and takes no more than a record for each entry and node.
        ensures gives { (rules : List GlobRule) → SpellsRules self.now rules → All KeepsLimits rules →
            Gives (λ listed. IsListing rules (map plain_listed listed.items)) (listing_records rules)
            (spending_of meter.old budget.old) (spending_of meter.new budget.new) result }
        // On any bytes each rule stands in one of the two lists, or at a leaf to which characters of one byte lead from a root.
        ensures sources { IfOk result (λ listed. All (IsRuleOf self.now) (map plain_listed listed.items)) }
        // For an answer both lists lie in the cache, and so does the tree with all of its nodes.
        ensures inside { OnOk result (LieRules self.now (field self.now 0 3) (field self.now 0 4) (field self.now 0 5)) }
        // On any bytes each type is a text of the cache, and each pattern is short.
        ensures text { IfOk result (λ listed. All (IsListed self.now) (map plain_listed listed.items)) }
        // A fault is one of the lists, of the tree or of a text, or the budget is spent, or memory is short.
        ensures fault { IfErr result (IsListingFault self.now budget.new.records) }
        // A record costs one node and two texts; four nodes come besides.
        ensures cost { Pays (per_record 512) 4 0 meter.old meter.new budget.old budget.new }
    {
        let literals = u64::from(self.header[3]);
        let tree = u64::from(self.header[4]);
        let globs = u64::from(self.header[5]);
        let source = ListingSource {
            alloc,
            counted: &self.counted,
        };
        let mut spending = Spending {
            meter: *meter,
            budget: *budget,
        };
        let rules = list_rules(&source, literals, tree, globs, &mut spending);
        *meter = spending.meter;
        *budget = spending.budget;
        rules
    }
}
