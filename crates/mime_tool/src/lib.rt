//! The program mimelook, over whatever holds its files and takes its output.
//!
//! [`run`] goes from the words of the command line to written bytes and an exit status. The crate
//! above hands it the real files and streams; a test hands it files and sinks in memory.
//!
//! ```text
//! let mut files = SystemFiles::new(&rt);
//! let mut out = Stream(rt.stdout());
//! let mut err = Stream(rt.stderr());
//! let words = ["plain", "--name-only", "-d", "", "a"];
//! let process = Process { environment: None, input: Untold(rt.stdin()), to_terminal: false };
//! let status = run(alloc, &words, &[], process, &mut files, &mut out, &mut err);
//! ```
//!
//! This prints `a: application/octet-stream`, and the status is 0.
//!
//! Read `specs/Run.antt` first for what a run writes and `specs/Finish.antt` for how it ends, then
//! `program`. A command is a module like `plain`, over one `desk` of files and sinks: it reads its
//! data, answers each FILE, and gives its status or a `stop`.
#![tactic(auto)]

mod build;
mod cache;
mod check;
mod desk;
mod directories;
mod environment;
mod explain;
mod files;
mod from_texts;
mod icon;
mod is_a;
mod line;
mod list;
mod names;
mod plain;
mod prepaid;
mod preparing;
mod process;
mod program;
mod sink;
mod sources;
mod status;
mod stop;
mod subjects;
mod system;
mod type_names;
mod types;
mod words;

pub use environment::Environment;
pub use files::{FileFault, Files, Inode};
pub use from_texts::{AnswerFault, OwnedAnswer, answer, visible_chooses_alike};
pub use mime_lookup::{Content, Untold};
pub use mime_text::DirTexts;
pub use process::Process;
pub use program::run;
pub use sink::{Sink, SinkFault};
pub use system::{Stream, SystemFiles, read_whole};
pub use words::RawWord;
