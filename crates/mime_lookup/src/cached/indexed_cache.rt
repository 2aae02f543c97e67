//! A cache that is opened once and looked up in many times, with what was read back of it.

ghost use Rattle.std.specs.Prelude.{◌≡◌, ◌+◌, ◌*◌, ◌/◌, ◌≤◌, ◌∷◌, ℕ, List, Contains, None, length, true};
ghost use Rattle.std.specs.Prelude.{IfErr, IfOk, IfSome, IsOkAnd, MatchResult, OnOk};
ghost use Rattle.mime_base.specs.Cache.Bytes.{Stands, field};
ghost use Rattle.mime_base.specs.Database.{PlainDatabase, pairs_of};
ghost use Rattle.mime_base.specs.Database.Subclass.{resolved};
ghost use Rattle.mime_base.specs.Format.Header.{HeaderAt, Offsets};
ghost use Rattle.mime_base.specs.Format.Magic.{MagicAt};
ghost use Rattle.mime_base.specs.Format.Pairs.{PairsAt};
ghost use Rattle.mime_base.specs.Magic.Extent.{sections_extent};
ghost use Rattle.mime_base.specs.Magic.{PlainSection};
ghost use Rattle.mime_base.specs.Meter.{raised};
ghost use Rattle.mime_lookup.specs.Affords.{magic_records};
ghost use Rattle.mime_lookup.specs.Ancestry.{kinds_of};
ghost use Rattle.mime_lookup.specs.Cached.{AreCacheTexts, IsFinding, plain_finding};
ghost use Rattle.mime_lookup.specs.Choice.{IsFirst};
ghost use Rattle.mime_lookup.specs.Costs.{Costs, CostsOwing, glob_cost, record_cost};
ghost use Rattle.mime_lookup.specs.Finding.{found_in};
ghost use Rattle.mime_lookup.specs.Halves.{bytes_of, front_length};
ghost use Rattle.mime_lookup.specs.NameTypes.{GivesTypes, owed_types};
ghost use Rattle.mime_lookup.specs.Searching.{NeedsParents, search_cost};
ghost use Rattle.mime_lookup.specs.Spelling.{SpellsGlobs, SpellsPairs};
ghost use Rattle.mime_lookup.specs.StepFaults.{IsFrontFault, IsGlobsFault, IsSearchFault};
ghost use Rattle.mime_lookup.specs.Steps.{StopsSniffing, SufficesForContent};
ghost use Rattle.mime_view.specs.Lists.{IsHeadFault, LiesHead};
ghost use Rattle.mime_view.specs.Opening.{IsOpenFault, Opens};
ghost use Rattle.mime_view.specs.Pairs.{GivesUnaliased};
ghost use Rattle.mime_view.specs.Spending.{Looks};

use crate::cached::ancestry::first_of;
use crate::cached::magic_of::read_magic;
use crate::cached::name_types::{NameTypes, types_of};
use crate::cached::sniff::{Finding, sniff_front, sniff_indexed};
use crate::fixed::OCTET_STREAM;
use crate::indexed::magic_index::MagicIndex;
use crate::read_back::icons::IndexedIcons;
use crate::read_back::name_types::{IndexedTypes, types_of as types_indexed};
use crate::read_back::names::IndexedNames;
use crate::read_back::pairs::IndexedPairs;
use mime_base::{Counted, Host, Meter};
use mime_load::{Unread, read_icons, read_names, read_pairs};
use mime_view::{Budget, Cache, CacheFault, Spending, Which};
use std::alloc::Global;
use std::marker::Model;

/// An opened cache, with an index of each part that was read back of it. This project's own.
///
/// Nothing is read back of it at first, and it is looked up in by a walk of its bytes. Whatever is read back, a lookup answers what it
/// answers by a walk. An index lies on the heap, so that a lookup that has none doesn't make room for it.
#[derive(Drop)]
pub struct IndexedCache<'a> {
    /// The bytes of the cache.
    counted: Counted<'a>,
    /// The cache.
    cache: Cache<'a>,
    /// The glob rules and the aliases, where they were read back.
    names: Option<Box<IndexedNames<'a>>>,
    /// The lines of magic, where they were read back.
    magic: Option<Box<MagicIndex<'a>>>,
    /// The aliases and the parents, where they were read back.
    pairs: Option<Box<IndexedPairs<'a>>>,
    /// The aliases and the icons, where they were read back.
    icons: Option<Box<IndexedIcons<'a>>>,
}

impl<'a> Model for IndexedCache<'a> {
    ghost use Rattle.std.specs.Prelude.{◌≡◌, ℕ, List, IfSome};
    ghost use Rattle.mime_lookup.specs.MagicOf.{IsMagicOf};
    ghost use Rattle.mime_view.specs.Opening.{Opens};

    ghost Value = { List ℕ };

    ghost view = { λ indexed. indexed.cache };

    ghost invariant = { λ indexed. Opens indexed.cache × (indexed.counted ≡ indexed.cache)
        × IfSome indexed.names (λ names. names.value ≡ indexed.cache)
        × IfSome indexed.magic (λ magic. IsMagicOf indexed.cache magic.value)
        × IfSome indexed.pairs (λ pairs. pairs.value ≡ indexed.cache)
        × IfSome indexed.icons (λ icons. icons.value ≡ indexed.cache) };
}

impl<'a> IndexedCache<'a> {
    /// Opens a cache of which nothing is read back, as [`Cache::open`] does.
    pub fn open(counted: Counted<'a>, meter: &mut Meter) -> Result<IndexedCache<'a>, CacheFault>
        // It opens a cache of version 1.2 that is neither too short nor too long; else the first thing that is wrong is the fault.
        ensures opened { MatchResult result
            (λ indexed. (indexed ≡ counted.entry) × Opens counted.entry) (IsOpenFault counted.entry) }
        // For an answer the header is counted as one record.
        ensures counted { OnOk result (meter.new.nodes ≡ raised meter.old.nodes 1) }
        // Before a fault it is counted at most once.
        ensures nodes { meter.new.nodes ≤ meter.old.nodes + 1 }
        // The count of records never falls.
        ensures rises { meter.old.nodes ≤ meter.new.nodes }
        // It compares nothing.
        ensures bytes { meter.new.bytes ≡ meter.old.bytes }
    {
        let again = counted.again();
        let cache = Cache::open(counted, meter)?;
        Ok(IndexedCache {
            counted: again,
            cache,
            names: None,
            magic: None,
            pairs: None,
            icons: None,
        })
    }

    /// Reads the aliases and the glob rules back, for many names, unless most rules are general patterns. It takes memory for each rule
    /// and each alias, and for the tree of their endings.
    ///
    /// # Errors
    ///
    /// One of these lists spells nothing, or an allocation was refused. Then nothing changes.
    pub fn read_names(&mut self, alloc: Global, meter: &mut Meter) -> Result<(), Unread>
        // The cache is the same.
        ensures same { self.new ≡ self.old }
        // It visits at most a record for each four bytes of the cache, one for each eight, and five.
        ensures nodes { meter.new.nodes ≤ meter.old.nodes + length self.old / 4 + length self.old / 8 + 5 }
    {
        let lists = read_names(alloc, &self.counted, meter)?;
        let index = IndexedNames::new(alloc, self.counted.again(), lists)?;
        if !index.is_mostly_general() {
            self.names = Some(Box::new(alloc, index)?);
        }
        Ok(())
    }

    /// Reads the magic list back, for many contents. It takes memory for each section and each line, at most for one of each for each 16
    /// and 32 bytes of the cache.
    ///
    /// # Errors
    ///
    /// The magic list spells no sections, or an allocation was refused. Then nothing changes.
    pub fn read_magic(&mut self, alloc: Global, meter: &mut Meter) -> Result<(), Unread>
        // The cache is the same.
        ensures same { self.new ≡ self.old }
        // It visits at most a record for each sixteen bytes of the cache, and two.
        ensures nodes { meter.new.nodes ≤ meter.old.nodes + length self.old / 16 + 2 }
    {
        let index = read_magic(alloc, &self.counted, meter)?;
        self.magic = Some(Box::new(alloc, index)?);
        Ok(())
    }

    /// Reads the aliases and the parents back, for many questions whether a type is another. It takes memory for each alias and each type
    /// that has a parent.
    ///
    /// # Errors
    ///
    /// One of these lists spells nothing, or an allocation was refused. Then nothing changes.
    pub fn read_pairs(&mut self, alloc: Global, meter: &mut Meter) -> Result<(), Unread>
        // The cache is the same.
        ensures same { self.new ≡ self.old }
        // It visits at most a record for each two bytes of the cache, one for each eight, and three.
        ensures nodes { meter.new.nodes ≤ meter.old.nodes + length self.old / 2 + length self.old / 8 + 3 }
    {
        let lists = read_pairs(alloc, &self.counted, meter)?;
        let index = IndexedPairs::new(alloc, self.counted.again(), &lists)?;
        self.pairs = Some(Box::new(alloc, index)?);
        Ok(())
    }

    /// The glob rules and the aliases, where they were read back.
    pub(crate) fn names(&self) -> Option<&IndexedNames<'a>>
        // They are those of the cache.
        ensures { IfSome result (λ names. names.now ≡ self.now) }
    {
        match &self.names {
            Some(names) => Some(names),
            None => None,
        }
    }

    /// The aliases and the parents, where they were read back.
    pub(crate) fn pairs(&self) -> Option<&IndexedPairs<'a>>
        // They are those of the cache.
        ensures { IfSome result (λ pairs. pairs.now ≡ self.now) }
    {
        match &self.pairs {
            Some(pairs) => Some(pairs),
            None => None,
        }
    }

    /// Reads the aliases and both lists of icons back, for many questions for icons. It takes memory for each alias and each type that
    /// has an icon.
    ///
    /// # Errors
    ///
    /// One of these lists spells nothing, or an allocation was refused. Then nothing changes.
    pub fn read_icons(&mut self, alloc: Global, meter: &mut Meter) -> Result<(), Unread>
        // The cache is the same.
        ensures same { self.new ≡ self.old }
        // It visits at most three records for each eight bytes of the cache, and four.
        ensures nodes { meter.new.nodes ≤ meter.old.nodes + 3 * (length self.old / 8) + 4 }
    {
        let lists = read_icons(alloc, &self.counted, meter)?;
        let index = IndexedIcons::new(alloc, self.counted.again(), &lists)?;
        self.icons = Some(Box::new(alloc, index)?);
        Ok(())
    }

    /// The aliases and the icons, where they were read back.
    pub(crate) fn icons(&self) -> Option<&IndexedIcons<'a>>
        // They are those of the cache.
        ensures icons { IfSome result (λ icons. icons.now ≡ self.now) }
        // It did open.
        ensures opens { Opens self.now }
    {
        match &self.icons {
            Some(icons) => Some(icons),
            None => None,
        }
    }

    /// The cache, for what there is no index of.
    pub fn cache(&self) -> &Cache<'a>
        // It is the cache.
        ensures cache { result.now ≡ self.now }
        // It did open.
        ensures opens { Opens self.now }
    {
        &self.cache
    }

    /// Whether the glob rules were read back.
    pub fn has_names(&self) -> bool {
        self.names.is_some()
    }

    /// What is found in a front of a content, as if it were the whole.
    ///
    /// It goes by the index where nothing is taken of the budget after it, and as much is left as a walk takes.
    // Always inlined: a lookup of a name alone has no front.
    #[inline(always)]
    pub fn sniff_front(
        &self,
        front: Option<&[u8]>,
        host: Host,
        is_last: bool,
        spending: &mut Spending,
    ) -> Result<Finding<'a>, CacheFault>
        // Where the magic of a database stands, or there is no front, it is what the front has as a content.
        ensures found { (b : PlainDatabase) → SufficesForContent self.now (bytes_of front.entry ≡ None) b → IfOk result
            (λ finding. plain_finding finding ≡ found_in b (bytes_of front.entry) host) }
        // Its type is a text of the cache, or fixed.
        ensures finding { IfOk result (IsFinding self.now) }
        // Where enough stands and is afforded, it doesn't stop.
        ensures stops { StopsSniffing self.now (bytes_of front.entry ≡ None)
            (SufficesForContent self.now (bytes_of front.entry ≡ None)) spending.old spending.new result }
        // The magic list shows the fault.
        ensures fault { IfErr result (IsFrontFault self.now (bytes_of front.entry) host spending.new.budget) }
        // Without a front nothing is looked at.
        ensures nothing { bytes_of front.entry ≡ None → spending.new ≡ spending.old }
        // Where the magic stands, no more records are taken than it has.
        ensures takes { (b : PlainDatabase) → SufficesForContent self.now (bytes_of front.entry ≡ None) b →
            spending.old.budget.records ≤ spending.new.budget.records + magic_records b }
        // Whatever the bytes are, a value byte costs as many bytes as the front has, and one.
        ensures cost { Costs 256 (front_length (bytes_of front.entry) + 1) 1 spending.old spending.new }
    {
        match (front, &self.magic) {
            (None, _) => Ok(Finding::Fixed(OCTET_STREAM)),
            (_, Some(index)) if is_last && self.has_room_for_magic(spending) => {
                Ok(sniff_indexed(index, front, host))
            }
            _ => sniff_front(&self.cache, front, host, spending),
        }
    }

    /// Whether as many records are left as sections and lines that were read back can be.
    fn has_room_for_magic(&self, spending: &Spending) -> bool
        ensures { result ≡ true → length self.now / 16 ≤ spending.now.budget.records }
    {
        self.cache.length() / 16 <= spending.budget.records
    }

    /// Whether the pairs were read back, and a walk of all that indexes take the place of is never spent: of the rules, whose records have
    /// twelve bytes and are taken twice at most, of the magic, and of the pairs.
    pub(crate) fn has_room_for_search(&self, spending: &Spending) -> bool
        // Then as many records are left as a walk of the rules, twice, and of the magic may take.
        ensures { result ≡ true → length self.now / 6 + length self.now / 16 ≤ spending.now.budget.records }
    {
        let length = self.cache.length();
        match &self.pairs {
            Some(pairs) => length / 6 + length / 16
                <= spending.budget.records.saturating_sub(pairs.count()),
            None => false,
        }
    }

    /// Which types of a name an index may give: what is walked after them takes of the budget what a walk for them leaves.
    fn indexed_types(&self, is_last: bool, spending: &Spending) -> IndexedTypes {
        if !is_last && self.magic.is_none() {
            IndexedTypes::One
        } else if self.has_room_for_search(spending) {
            IndexedTypes::Any
        } else {
            IndexedTypes::AtMostOne
        }
    }

    /// The types of a name that are kept, or of all rules that match it, as one where all are one type.
    ///
    /// They go by the index where there is one type, or none and no content is looked at after them, or by an index, or several and the
    /// search among them goes by an index too: what is taken of the budget after a walk for them goes by what that leaves.
    // Always inlined, so that the types are not moved.
    #[inline(always)]
    pub fn types_of(
        &self,
        alloc: Global,
        name: &[u8],
        which: Which,
        is_last: bool,
        spending: &mut Spending,
    ) -> Result<NameTypes<'a>, CacheFault>
        // A lookup refuses longer names.
        requires short { length name.now ≤ 4096 }
        // Where the glob rules stand, these are the types of the name, and no more is taken than the rules have.
        ensures gives { (b : PlainDatabase) → SpellsGlobs self.now b →
            GivesTypes which b name.now spending.old spending.new result }
        // They are texts of the cache.
        ensures text { IfOk result (AreCacheTexts self.now) }
        // The lists of rules, the tree of suffixes or an alias step shows the fault.
        ensures fault { IfErr result (IsGlobsFault self.now name.now spending.new.budget) }
        // Whatever the bytes are, it costs a search, and leaves enough to try each type.
        ensures cost { CostsOwing (owed_types result) (record_cost (length name.now)) 0 (glob_cost (length name.now))
            spending.old spending.new }
    {
        match &self.names {
            Some(names) => types_indexed(
                alloc,
                &self.cache,
                names,
                self.indexed_types(is_last, spending),
                name,
                which,
                spending,
            ),
            None => types_of(alloc, &self.cache, name, which, spending),
        }
    }

    /// What a lookup may take of the cache, as [`Budget::of`] says.
    pub fn budget(&self) -> Budget
        // A quarter of the length, rounded down: a record has four bytes or more.
        ensures records { result.records ≡ length self.now / 4 }
        // The length.
        ensures value_bytes { result.value_bytes ≡ length self.now }
        // The cache did open.
        ensures opens { Opens self.now }
    {
        Budget::of(&self.cache)
    }

    /// The type that a name stands for, or the name, as [`Cache::unalias`] says. Where names were read back, nothing is visited.
    pub fn unalias<'k>(
        &self,
        kind: &'k [u8],
        meter: &mut Meter,
        budget: &mut Budget,
    ) -> Result<&'k [u8], CacheFault>
    where
        'a: 'k,
        // Where the alias list stands, it gives the type that the name stands for, or the name.
        ensures answer { (offsets : Offsets) (pairs : List (List ℕ × List ℕ)) → HeaderAt (Stands self.now) offsets →
            PairsAt (Stands self.now) offsets.aliases pairs → IsOkAnd result (λ name. name.now ≡ resolved pairs kind.now) }
        // On any bytes it gives the name or a text of the cache, or the list or a text that it names does not stand.
        ensures given { GivesUnaliased self.now (field self.now 0 1) kind.now result }
        // It takes nothing of the budget.
        ensures budget { budget.new ≡ budget.old }
        // It visits at most 29 records, and compares at most a text for each.
        ensures cost { Looks 29 (256 * 29) meter.old meter.new }
    {
        match &self.names {
            Some(names) => Ok(names.unalias(kind)),
            None => self.cache.unalias(kind, meter, budget),
        }
    }

    /// How far into a content magic can look, as [`Cache::extent`] says.
    pub fn extent(&self, meter: &mut Meter, budget: &mut Budget) -> Result<u32, CacheFault>
        // Where magic stands, it gives how far into a content its lines can look.
        ensures answer { (offsets : Offsets) (sections : List PlainSection) → HeaderAt (Stands self.now) offsets →
            MagicAt (Stands self.now) offsets.magic sections → IsOkAnd result (λ extent. extent ≡ sections_extent sections) }
        // On any bytes it gives the number that stands there.
        ensures stated { IfOk result (λ extent. extent ≡ field self.now (field self.now 0 6) 1) }
        // An answer means that the head of the list lies in the cache.
        ensures inside { OnOk result (LiesHead self.now (field self.now 0 6) 12) }
        // The only fault is that it does not.
        ensures fault { IfErr result (IsHeadFault self.now (field self.now 0 6) 12) }
        // It takes nothing of the budget.
        ensures budget { budget.new ≡ budget.old }
        // It visits one record, and compares nothing.
        ensures cost { Looks 1 0 meter.old meter.new }
    {
        self.cache.extent(meter, budget)
    }

    /// The first of the types that is the base or a subclass of it, else the default.
    pub fn first_of(
        &self,
        alloc: Global,
        kinds: &[&'a [u8]],
        default: &'a [u8],
        base: &[u8],
        spending: &mut Spending,
    ) -> Result<&'a [u8], CacheFault>
        // Any text of the cache and any type name is this short.
        requires base { length base.now ≤ 255 }
        // Where the pairs stand, it is the first of the types that is the base or a subclass of it, else the default.
        ensures answer { (b : PlainDatabase) → SpellsPairs self.now b → IfOk result
            (λ kind. IsFirst (pairs_of b) base.now default.entry.now (kinds_of kinds.now) kind.now) }
        // It is the default, or one of the types.
        ensures one { IfOk result (λ kind. Contains (default.entry.now ∷ kinds_of kinds.now) kind.now) }
        // Where the pairs stand and a record is left for each parent, only memory is refused.
        ensures need { NeedsParents self.now spending.old.budget result }
        // The parents of a type, an alias step or memory shows the fault.
        ensures fault { IfErr result (IsSearchFault self.now spending.new.budget) }
        // It costs 29 nodes for each type, and 59 for each record that it takes.
        ensures cost { Costs search_cost 0 (29 * length kinds.now) spending.old spending.new }
    {
        first_of(alloc, self, kinds, default, base, spending)
    }
}
