//! What usual command lines ask for, with no word of clap.

mod build;
mod cache;
mod directories;
mod plain;
mod refusals;

pub use build::{
    output_first_spelling_of_build, spelling_of_build_of_user, spelling_of_build_without_twins,
    usual_spelling_of_build,
};
pub use cache::{
    usual_spelling_of_check, usual_spelling_of_explain, usual_spelling_of_icon,
    usual_spelling_of_is_a, usual_spelling_of_list, usual_spelling_of_type,
};
pub use directories::parts_of_directories;
pub use plain::usual_spelling_of_plain;
pub use refusals::{
    no_words, spellings_of_help, spellings_of_version, words_that_conflict, words_that_lack,
};
