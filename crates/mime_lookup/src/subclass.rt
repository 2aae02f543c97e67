//! The subclass rule ("Subclassing").

ghost use Rattle.std.specs.Prelude.{◌≡◌, ◌+◌, length, nat_eq};
ghost use Rattle.std.specs.List.{starts_with};
ghost use Rattle.mime_base.specs.Database.Subclass.{is_by_itself};
ghost use Rattle.mime_lookup.specs.Costs.{ComparesAtMost};

use crate::fixed::{OCTET_STREAM, TEXT_PLAIN};
use mime_base::{Meter, same_name};

/// Whether a type is the base or a subclass of it without any pair.
///
/// Every `text/*` type is a subclass of `text/plain`, and every type but `inode/*` of
/// `application/octet-stream`.
// Part of each search, which asks it of each type that it comes to.
#[inline(always)]
#[tactic(auto, unfolding(mime_base::specs::Database::Subclass::is_by_itself))]
pub fn is_by_itself(kind: &[u8], base: &[u8], meter: &mut Meter) -> bool
    // It says whether the type is under the base without any pair.
    ensures answer { result ≡ is_by_itself kind.now base.now }
    // No record is visited; at most the bytes of the base, and 52 for the words that it is compared with, are compared.
    ensures compares { ComparesAtMost (length base.now + 52) meter.old meter.new }
{
    same_name(base, kind, meter)
        || (begins_with(kind, b"text/", meter) && same_name(TEXT_PLAIN, base, meter))
        || (!begins_with(kind, b"inode/", meter) && same_name(OCTET_STREAM, base, meter))
}

/// Whether a type begins with these bytes.
fn begins_with(kind: &[u8], front: &[u8], meter: &mut Meter) -> bool
    ensures answer { result ≡ starts_with nat_eq kind.now front.now }
    ensures compares { ComparesAtMost (length front.now + 1) meter.old meter.new }
{
    kind.len() >= front.len() && same_name(front, &kind[..front.len()], meter)
}
