//! Names of types and icons, and patterns: texts of bytes that keep the limits of their kind.
//!
//! That a type is `MEDIA/SUBTYPE` and that a pattern is a glob is the public specification's ("Directory
//! layout" and "The glob files"). The limits on their bytes and lengths are this project's own.

ghost use Rattle.std.specs.Prelude.{◌≡◌, ◌<◌, ◌≤◌, true, false, length, take, MatchResult};
ghost use Rattle.std.specs.List.{list_all};
ghost use Rattle.mime_base.specs.Names.{has_inner_slash, is_icon_byte, is_icon_name, is_name_byte, is_pattern};
ghost use Rattle.mime_base.specs.Names.{is_pattern_byte, is_type_name};

use crate::kept::class::{Class, class_of_bytes};
use smallvec::SmallVec;
use std::alloc::Global;
use std::marker::Model;
use std::simd::prelude::*;
use thiserror::Error;

/// The longest type name, pattern and icon name, in bytes.
const LONGEST: usize = 255;

/// Type names and icon names of at most that many bytes need no allocation.
const SHORT_NAME: usize = 32;

/// Patterns of at most that many bytes need no allocation.
const SHORT_PATTERN: usize = 16;

/// The shortest type name, in bytes.
const SHORTEST_TYPE_NAME: usize = 3;

/// Why bytes are no type name, pattern or icon name.
#[derive(Clone, Copy, Debug, PartialEq, Eq, Error)]
pub enum NameFault {
    /// The bytes are past the limits of a type name.
    #[error("not a type name")]
    BadType,
    /// The bytes are past the limits of a pattern.
    #[error("not a pattern")]
    BadPattern,
    /// Out of memory: the copy could not be allocated.
    #[error("out of memory")]
    OutOfMemory,
    /// The bytes are past the limits of an icon's name.
    #[error("not an icon name")]
    BadIcon,
}

/// The name of a MIME type, as `text/plain`.
///
/// ```
/// let name = TypeName::new(rt.alloc(), b"text/plain")?;
/// assert_eq!(rt; TypeName::new(rt.alloc(), b"text").err(), Some(NameFault::BadType));
/// ```
///
/// It has 3 to 255 bytes and at least one `/`, which is neither its first nor its last byte. None of
/// its bytes is a space, a control byte below it, or a colon.
#[derive(Debug, Drop)]
pub struct TypeName {
    text: SmallVec<u8, SHORT_NAME>,
}

impl Model for TypeName {
    ghost use Rattle.std.specs.Prelude.{◌≡◌, ℕ, List, true};
    ghost use Rattle.mime_base.specs.Names.{is_type_name};

    ghost Value = { List ℕ };

    ghost view = { λ name. name.text.items };

    ghost invariant = { λ name. is_type_name name.text.items ≡ true };
}

impl TypeName {
    /// A copy of the bytes as a name, or [`NameFault::BadType`] where they are past its limits.
    pub fn new(alloc: Global, bytes: &[u8]) -> Result<TypeName, NameFault>
        // Bytes within the limits are copied whole, unless memory runs out.
        ensures accepted { is_type_name bytes.now ≡ true →
            MatchResult result (λ name. name ≡ bytes.now) (λ fault. fault ≡ NameFault.OutOfMemory) }
        // Any other bytes are `BadType`, however little memory there is.
        ensures refused { is_type_name bytes.now ≡ false → result ≡ Err NameFault.BadType }
    {
        if !is_type_name(bytes) {
            return Err(NameFault::BadType);
        }
        match SmallVec::from_slice(alloc, bytes) {
            Ok(text) => Ok(TypeName { text }),
            Err(_) => Err(NameFault::OutOfMemory),
        }
    }

    /// The text of the name.
    pub fn bytes(&self) -> &[u8]
        // They are the bytes that the name was made of.
        ensures text { result.now ≡ self.now }
        // They are within the limits of a type name.
        ensures limits { is_type_name self.now ≡ true }
    {
        &self.text
    }
}

/// A glob pattern for file names, as `*.txt`.
///
/// ```
/// let pattern = Pattern::new(rt.alloc(), b"*.txt")?;
/// assert_eq!(rt; Pattern::new(rt.alloc(), b"a:b").err(), Some(NameFault::BadPattern));
/// ```
///
/// It has 1 to 255 bytes, none of which is a zero byte, a newline or a colon.
#[derive(Debug, Drop)]
pub struct Pattern {
    glob: SmallVec<u8, SHORT_PATTERN>,
    /// Its class, which every rule is ranked and stored by, found once.
    pub(crate) class: Class,
}

impl Model for Pattern {
    ghost use Rattle.std.specs.Prelude.{◌≡◌, ℕ, List, true};
    ghost use Rattle.mime_base.specs.Kept.Classes.{class_of};
    ghost use Rattle.mime_base.specs.Names.{is_pattern};

    ghost Value = { List ℕ };

    ghost view = { λ pattern. pattern.glob.items };

    ghost invariant = { λ pattern. (is_pattern pattern.glob.items ≡ true) × (pattern.class ≡ class_of pattern.glob.items) };
}

impl Pattern {
    /// A copy of the bytes as a pattern, or [`NameFault::BadPattern`] where they are past its limits.
    pub fn new(alloc: Global, bytes: &[u8]) -> Result<Pattern, NameFault>
        // Bytes within the limits are copied whole, unless memory runs out.
        ensures accepted { is_pattern bytes.now ≡ true →
            MatchResult result (λ pattern. pattern ≡ bytes.now) (λ fault. fault ≡ NameFault.OutOfMemory) }
        // Any other bytes are `BadPattern`, however little memory there is.
        ensures refused { is_pattern bytes.now ≡ false → result ≡ Err NameFault.BadPattern }
    {
        if !is_pattern(bytes) {
            return Err(NameFault::BadPattern);
        }
        match SmallVec::from_slice(alloc, bytes) {
            Ok(glob) => Ok(Pattern {
                glob,
                class: class_of_bytes(bytes),
            }),
            Err(_) => Err(NameFault::OutOfMemory),
        }
    }

    /// The text of the pattern.
    pub fn bytes(&self) -> &[u8]
        // They are the bytes that the pattern was made of.
        ensures text { result.now ≡ self.now }
        // They are within the limits of a pattern.
        ensures limits { is_pattern self.now ≡ true }
    {
        &self.glob
    }
}

/// The name of an icon in an icon theme, as `package-x-generic`.
///
/// It has 1 to 255 bytes, none of which is a zero byte or a newline.
#[derive(Debug, Drop)]
pub struct IconName {
    name: SmallVec<u8, SHORT_NAME>,
}

impl Model for IconName {
    ghost use Rattle.std.specs.Prelude.{◌≡◌, ℕ, List, true};
    ghost use Rattle.mime_base.specs.Names.{is_icon_name};

    ghost Value = { List ℕ };

    ghost view = { λ icon. icon.name.items };

    ghost invariant = { λ icon. is_icon_name icon.name.items ≡ true };
}

impl IconName {
    /// A copy of the bytes as the name of an icon, or [`NameFault::BadIcon`] where they are past its
    /// limits.
    pub fn new(alloc: Global, bytes: &[u8]) -> Result<IconName, NameFault>
        // Bytes within the limits are copied whole, unless memory runs out.
        ensures accepted { is_icon_name bytes.now ≡ true →
            MatchResult result (λ icon. icon ≡ bytes.now) (λ fault. fault ≡ NameFault.OutOfMemory) }
        // Any other bytes are `BadIcon`, however little memory there is.
        ensures refused { is_icon_name bytes.now ≡ false → result ≡ Err NameFault.BadIcon }
    {
        if !is_icon_name(bytes) {
            return Err(NameFault::BadIcon);
        }
        match SmallVec::from_slice(alloc, bytes) {
            Ok(name) => Ok(IconName { name }),
            Err(_) => Err(NameFault::OutOfMemory),
        }
    }

    /// The text of the name.
    pub fn bytes(&self) -> &[u8]
        // They are the bytes that the name was made of.
        ensures text { result.now ≡ self.now }
        // They are within the limits of an icon's name.
        ensures limits { is_icon_name self.now ≡ true }
    {
        &self.name
    }
}

/// Whether all bytes may stand in a type name. The last vector may begin before the one before it ends, so that no bytes are
/// left over.
fn are_name_bytes(bytes: &[u8]) -> bool
    ensures { result ≡ list_all is_name_byte bytes.now }
{
    if 16 <= bytes.len() {
        return are_many_name_bytes(bytes);
    }
    if 8 <= bytes.len() {
        return are_eight_name_bytes(bytes) && are_eight_name_bytes(&bytes[bytes.len() - 8..]);
    }
    are_few_name_bytes(bytes)
}

/// The same of sixteen bytes and more.
fn are_many_name_bytes(bytes: &[u8]) -> bool
    requires { 16 ≤ length bytes.now }
    ensures { result ≡ list_all is_name_byte bytes.now }
{
    let last = bytes.len() - 16;
    let mut at = 0;
    while at < last {
        if !are_sixteen_name_bytes(&bytes[at..]) {
            return false;
        }
        at += 16;
    }
    are_sixteen_name_bytes(&bytes[last..])
}

/// The same of few bytes, one at a time.
#[inline]
fn are_few_name_bytes(bytes: &[u8]) -> bool
    ensures { result ≡ list_all is_name_byte bytes.now }
{
    bytes.iter().all(|byte| *byte > b' ' && *byte != b':')
}

/// Whether the first sixteen bytes may stand in a type name.
#[inline]
fn are_sixteen_name_bytes(bytes: &[u8]) -> bool
    requires { 16 ≤ length bytes.now }
    ensures { result ≡ list_all is_name_byte (take 16 bytes.now) }
{
    let front = u8x16::from_slice(bytes);
    let wrong = front.simd_le(u8x16::splat(b' ')) | front.simd_eq(u8x16::splat(b':'));
    wrong.to_bitmask() == 0
}

/// Whether the first eight bytes may stand in a type name.
#[inline]
fn are_eight_name_bytes(bytes: &[u8]) -> bool
    requires { 8 ≤ length bytes.now }
    ensures { result ≡ list_all is_name_byte (take 8 bytes.now) }
{
    let front = u8x8::from_slice(bytes);
    let wrong = front.simd_le(u8x8::splat(b' ')) | front.simd_eq(u8x8::splat(b':'));
    wrong.to_bitmask() == 0
}

fn has_inner_slash(bytes: &[u8]) -> bool
    requires { 0 < length bytes.now }
    ensures { result ≡ has_inner_slash bytes.now }
{
    bytes.contains(&b'/') && bytes[0] != b'/' && bytes[bytes.len() - 1] != b'/'
}

/// Whether the bytes are a type's name: 3 to 255 bytes above the space, none of them a colon, with a `/` that is neither the
/// first nor the last.
#[tactic(auto, unfolding(crate::specs::Names::is_type_name))]
pub fn is_type_name(bytes: &[u8]) -> bool
    // It says whether they keep these limits.
    ensures { result ≡ is_type_name bytes.now }
{
    SHORTEST_TYPE_NAME <= bytes.len()
        && bytes.len() <= LONGEST
        && are_name_bytes(bytes)
        && has_inner_slash(bytes)
}

fn are_pattern_bytes(bytes: &[u8]) -> bool
    ensures { result ≡ list_all is_pattern_byte bytes.now }
{
    bytes
        .iter()
        .all(|byte| *byte != 0 && *byte != b'\n' && *byte != b':')
}

#[tactic(auto, unfolding(crate::specs::Names::is_pattern))]
fn is_pattern(bytes: &[u8]) -> bool
    ensures { result ≡ is_pattern bytes.now }
{
    0 < bytes.len() && bytes.len() <= LONGEST && are_pattern_bytes(bytes)
}

fn are_icon_bytes(bytes: &[u8]) -> bool
    ensures { result ≡ list_all is_icon_byte bytes.now }
{
    bytes.iter().all(|byte| *byte != 0 && *byte != b'\n')
}

#[tactic(auto, unfolding(crate::specs::Names::is_icon_name))]
fn is_icon_name(bytes: &[u8]) -> bool
    ensures { result ≡ is_icon_name bytes.now }
{
    0 < bytes.len() && bytes.len() <= LONGEST && are_icon_bytes(bytes)
}
