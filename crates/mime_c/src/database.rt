//! A database that is kept open between calls, for C.
//!
//! ```text
//! mimelook_database *database;
//! mimelook_report report = mimelook_open(cache, cache_length, &database);
//! report = mimelook_database_unalias(database, type, type_length, &resolved);
//! mimelook_close(database);
//! ```
//!
//! What is open lies on the heap ([`heap_value`]), and C has its address alone. A call takes the address by value as a [`Handle`], which
//! owns what lies there, and gives that back by what it returns, a [`HandleReport`]; both cross as if there were nothing but the address
//! and the report. So what C owes between calls is what an owner owes: it closes a database once, and asks it no more then. NULL is no
//! database, and is answered so.
//!
//! A clause sees a database as the bytes of its cache, and the memory that closing gives back. The cache's bytes are taken to last for
//! good, since a clause can't say that they do until a database is closed: so C must not let go of them before. Those of a cache that was
//! made of directories do last for good here: closing gives their memory to C, which frees it.

pub mod close;
pub mod directories;
pub mod extent;
mod handle;
mod heap_value;
pub mod hits;
pub mod icons;
pub mod is_a;
mod kept;
pub mod listed_icons;
pub mod look_up;
pub mod open;
mod open_database;
pub mod parents;
pub mod sniff;
pub mod unalias;

pub use handle::Handle;
pub use kept::{DirectoriesReport, HandleReport, Kept};
