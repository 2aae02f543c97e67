//! What is seen of a content.

ghost use Rattle.std.specs.Prelude.{◌≡◌, ◌≤◌, IfSome, length};
ghost use Rattle.mime_base.specs.declared.magic.host.Host.TheVariants.{Little};
ghost use Rattle.mime_base.specs.Database.Subclass.{resolved};
ghost use Rattle.mime_base.specs.Magic.Holds.{first_magic};
ghost use Rattle.mime_load.specs.Lent.{plain_lists};
ghost use Rattle.mime_lookup.specs.Cached.{IsCacheText};
ghost use Rattle.mime_lookup.specs.Sniffing.{sniffed};
ghost use Rattle.mime_view.specs.Magic.{plain_found};
ghost use Rattle.mime_tool.specs.Check.{IsReadBack};
ghost use Rattle.mime_tool.specs.Explain.{section_in};
ghost use Rattle.mime_tool.specs.ExplainSteps.{IsReady, ReadsEnough, bytes_of, database_of};

use super::Explaining;
use mime_base::{Counted, Host, Meter, TEXTUAL_FRONT};
use mime_load::{Lists, magic_extent};
use mime_lookup::{Cause, Content, IndexedCache, by_bytes, read_front};
use std::alloc::Global;

/// The front of a content that magic can look at, if there is a content.
pub(super) fn front_of<R: Content>(
    alloc: Global,
    lists: &Lists<'_>,
    content: &mut Option<R>,
) -> Result<Option<Vec<u8>>, Cause>
    // It is enough for a lookup, or a read failed, or memory ran out.
    ensures { ReadsEnough R.remaining R.health (plain_lists lists.now) content.old result }
{
    let Some(reader) = content else {
        return Ok(None);
    };
    let limit = u64::from(TEXTUAL_FRONT).max(magic_extent(&lists.magic)) as usize;
    let mut read = 0;
    let front = read_front(alloc, reader, limit, &mut read)?;
    Ok(Some(front))
}

/// The first section of magic that holds for a content, by its type and its priority.
pub(super) fn section_of<'b>(
    explaining: Explaining<'_, '_, 'b>,
    front: Option<&[u8]>,
) -> Option<(&'b [u8], u32)>
    // The lists were read back of the bytes.
    requires ready { IsReady explaining }
    // It is that of the database, if there is a content and one holds.
    ensures section { plain_found result ≡ section_in (database_of explaining.entry) (bytes_of front.entry) }
    // Its type is a text of the cache.
    ensures text { IfSome result (λ section. IsCacheText explaining.entry.bytes.now section.0.now) }
{
    match front {
        Some(front) => sniff(explaining, front),
        None => None,
    }
}

fn sniff<'b>(explaining: Explaining<'_, '_, 'b>, front: &[u8]) -> Option<(&'b [u8], u32)>
    requires ready { IsReady explaining }
    ensures section { plain_found result ≡ first_magic (database_of explaining.entry).sections front.now Little }
    ensures text { IfSome result (λ section. IsCacheText explaining.entry.bytes.now section.0.now) }
{
    let indexed = opened(explaining.bytes, explaining.lists);
    let mut meter = Meter::new();
    let mut budget = indexed.budget();
    let cache = indexed.cache();
    match cache.sniff(front, Host::Little, &mut meter, &mut budget) {
        Ok(section) => section,
        Err(_) => unreachable!(),
    }
}

/// What a content is sniffed as of which this section holds.
pub(super) fn sniffed_as<'b>(
    explaining: Explaining<'_, '_, 'b>,
    section: Option<(&'b [u8], u32)>,
    front: Option<&[u8]>,
) -> &'b [u8]
    // The lists were read back of the bytes.
    requires ready { IsReady explaining }
    // The section is the first that holds for the front.
    requires section { plain_found section ≡ section_in (database_of explaining) (bytes_of front) }
    // Its type is a text of the cache.
    requires text { IfSome section (λ it. IsCacheText explaining.bytes.now it.0.now) }
    // It is so over the database.
    ensures sniffed { result.now ≡ sniffed (database_of explaining.entry) (bytes_of front.entry) Little }
    // It is short, as every text of a cache is.
    ensures short { length result.now ≤ 255 }
{
    match (section, front) {
        (Some((kind, _)), _) => unalias(explaining, kind),
        (None, Some(front)) => by_bytes(front),
        (None, None) => b"application/octet-stream",
    }
}

fn unalias<'b>(explaining: Explaining<'_, '_, 'b>, kind: &'b [u8]) -> &'b [u8]
    requires ready { IsReady explaining }
    requires text { IsCacheText explaining.bytes.now kind.now }
    ensures resolved { result.now ≡ resolved (database_of explaining.entry).aliases kind.entry.now }
    ensures short { length result.now ≤ 255 }
{
    let indexed = opened(explaining.bytes, explaining.lists);
    let mut meter = Meter::new();
    let mut budget = indexed.budget();
    match indexed.unalias(kind, &mut meter, &mut budget) {
        Ok(kind) => kind,
        Err(_) => unreachable!(),
    }
}

/// The cache of which these lists were read back.
pub(super) fn opened<'b>(bytes: &'b [u8], lists: &Lists<'_>) -> IndexedCache<'b>
    // The bytes are a cache: lists were read back of them.
    requires back { IsReadBack bytes.now (plain_lists lists.now) }
    // It has these bytes.
    ensures { result ≡ bytes.entry.now }
{
    let mut meter = Meter::new();
    match IndexedCache::open(Counted::new(bytes), &mut meter) {
        Ok(indexed) => indexed,
        Err(_) => unreachable!(),
    }
}
