//! The command line of mimelook: what its words ask for. This project's own.
//!
//! [`request_of`] takes the words after the program's name and gives a [`Request`], or an error whose
//! text is for the user: help, the version, or what is wrong with the words.
//!
//! ```text
//! let words = ["plain", "-d", "/usr/local/share:/usr/share", "--name-only", "notes.txt"];
//! match request_of(alloc, &words) {
//!     Ok(Request::Plain { directories, options, subjects }) => ..,
//!     Err(error) => ..,
//! }
//! ```
//!
//! Here `directories` names `/usr/local/share` and `/usr/share`, `options.name_only` is on, the other
//! options are off, and `subjects` are the files `["notes.txt"]`. `build -d DIRS -o FILE` gives a
//! [`Request::Build`]. Over a cache, `list -c CACHE` gives a [`Request::List`], `check
//! -c CACHE` a [`Request::Check`], `explain -c CACHE FILE...` a [`Request::Explain`], `isa -c CACHE TYPE
//! BASE` a [`Request::IsA`], `icon -c CACHE TYPE` a [`Request::Icon`], and `type -c CACHE FILE...` a
//! [`Request::Type`]; these six take `-d DIRS` in place of `-c CACHE`. Without either, any command is
//! over the user's data directories.
//!
//! Read `specs/Request.antt` first for what words mean, then [`request_of`]; `command` describes the
//! options to clap, and `spelling` has the laws that say what usual words mean with no word of clap.
#![tactic(auto)]

mod command;
mod request;
mod spelling;

pub use request::{Directories, Options, Output, Request, Source, Subjects, request_of};
pub use spelling::{
    no_words, output_first_spelling_of_build, parts_of_directories, spelling_of_build_of_user,
    spelling_of_build_without_twins, spellings_of_help, spellings_of_version,
    usual_spelling_of_build, usual_spelling_of_check, usual_spelling_of_explain,
    usual_spelling_of_icon, usual_spelling_of_is_a, usual_spelling_of_list,
    usual_spelling_of_plain, usual_spelling_of_type, words_that_conflict, words_that_lack,
};
