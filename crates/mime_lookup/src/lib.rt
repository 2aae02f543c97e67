//! The checking order: from a cache, a name and a content to a type.
//!
//! ```text
//! let mut content = Some(&b"#!/bin/sh\n"[..]);
//! let (host, order) = (Host::Little, Order::GlobsFirst);
//! let answer = look_up(alloc, Counted::new(bytes), b"install.sh", &mut content, host, order)?;
//! // answer.kind is the type, and answer.read says how many bytes of the content were read
//! ```
//!
//! [`look_up`] goes by the bytes of a cache, whatever they are. Over a cache that spells a database, the
//! type that it answers is the one that the definition of the checking order gives to the name and the
//! whole content, of which it reads no more than magic can look at; [`Content`] is what it reads from,
//! and may tell whether its reads can fail. [`look_up_name`] is a lookup without a content, which says too how much of
//! one would be read. [`is_a`] and [`icon_of`] go by the same bytes. [`look_up_again`] is the lookup for
//! many names and contents, over an [`IndexedCache`], and so are [`look_up_name_again`], [`sniff_again`], [`is_a_again`],
//! [`icon_again`] and [`hits_again`]. A [`PaidCache`] is read back once its answers have paid for that.
//! [`look_up_plain`] answers the same by trying every rule, line and pair of a database, and so do [`is_a_plain`] and
//! [`icon_of_plain`] for one question. [`look_up_indexed`], [`hits_indexed`] and [`is_a_indexed`] go by an [`IndexedDatabase`] that is made of
//! one for many questions, [`look_up_by_magic`] by its [`DatabaseMagic`], for contents alone, and [`icon_of_indexed`] by its
//! [`DatabaseIcons`]. A [`MagicIndex`] is made of the magic that was read back from a cache.
//!
//! Read `cached` first, which has the two halves of a lookup: `cached::by_name`, what a name gives by
//! itself, and `cached::by_content`, what a front of the content then gives. Then what these take in
//! turn: `cached::name_types`, the types of a name; `cached::sniff`, the type of a front; and
//! `cached::ancestry`, the search for a subclass. `content` and `reading` are what a lookup reads from and
//! how. `checking` has the same steps over a database, with `sniff`; what they ask of one is `asked`. `lists` answers it
//! by trying all, with `kept`, `candidates` and `ancestry`, the last over `places`, the index of the pairs, and
//! `indexed` by its parts. `climb` is what a question for a subclass begins with where the pairs are at hand, and `icon_index` what
//! icons are found by, of a database and of a cache that was read back.
#![tactic(auto)]

mod ancestry;
mod answer;
mod asked;
mod cached;
mod candidates;
mod checking;
mod climb;
mod content;
mod fixed;
mod hits;
mod icon_index;
mod indexed;
mod kept;
mod limits;
mod lists;
mod name_map;
mod order;
mod pairs;
mod places;
mod question;
mod queue;
mod read_back;
mod reading;
mod script;
mod short_types;
mod sniff;
mod stopped;
mod subclass;

pub use answer::{Answer, NameAnswer};
pub use cached::{
    IconText, Icons, IndexedCache, PaidCache, SniffedContent, hits_again, icon_again, icon_of,
    is_a, is_a_again, is_below, look_up, look_up_again, look_up_name, look_up_name_again,
    sniff_again, sniff_alone,
};
pub use content::{Content, ReadFault, Untold};
pub use indexed::IndexedDatabase;
pub use indexed::database_magic::{DatabaseMagic, look_up_by_magic};
pub use indexed::hits::hits_indexed;
pub use indexed::icons::{DatabaseIcons, icon_of_indexed};
pub use indexed::look_up::look_up_indexed;
pub use indexed::magic_index::MagicIndex;
pub use indexed::subclass::is_a_indexed;
pub use limits::LONGEST_NAME;
pub use lists::icons::icon_of_plain;
pub use lists::look_up_plain;
pub use lists::subclass::is_a_plain;
pub use order::Order;
pub use reading::read_front;
pub use script::{Script, Step};
pub use sniff::{HIGH_PRIORITY, by_bytes, front_is_enough};
pub use stopped::{Cause, Stopped};
