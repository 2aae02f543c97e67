//! Files, sinks, readers and a disk in memory, over which the program is tested, and runs of it over them.
//!
//! [`Shelf`] and [`Drawer`] tell what they store and what can be replaced, nothing on the one and one
//! file in the other, so a run over them is one of which every clause of the program speaks; a [`Slate`]
//! tells how many bytes it can hold;
//! [`FailingFiles`], [`FailingShelf`], [`FailingDrawer`], [`FailingSink`], [`Script`] and [`Disk`] fail
//! at a call of choice.
#![tactic(auto)]

mod disk;
mod drawer;
mod failing;
mod reader;
mod runs;
mod shelf;
mod slate;

pub use disk::{Disk, Opened};
pub use drawer::{Drawer, Sheet};
pub use failing::{FailingDrawer, FailingFiles, FailingShelf, FailingSink};
pub use reader::{Script, Step};
pub use runs::{Outcome, Said, UNSET, ended, ended_by, in_environment, ran};
pub use shelf::{Entry, Page, Shelf};
pub use slate::Slate;
