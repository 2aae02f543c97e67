//! The user's data directories, as the environment names them ("XDG Base Directory Specification").

ghost use Rattle.std.specs.Prelude.{◌≡◌, ◌∷◌, IfOk, option_map, string_bytes};
ghost use Rattle.clap.specs.Walk.{texts};
ghost use Rattle.mime_tool.specs.Environment.{absolute_parts, all_directories, data_dirs_of, is_absolute, own_directory};
ghost use Rattle.mime_tool.specs.Environment.{plain_environment, set, unless_empty};

use std::alloc::{AllocError, Global};

/// The variables that name the user's data directories.
#[derive(Clone, Copy, Debug)]
pub struct Environment<'a> {
    /// `XDG_DATA_HOME`, if it is set.
    pub data_home: Option<&'a str>,
    /// `HOME`, if it is set.
    pub home: Option<&'a str>,
    /// `XDG_DATA_DIRS`, if it is set.
    pub data_dirs: Option<&'a str>,
}

/// The directory of the user's own data, or an empty path where none is named.
pub(crate) fn own_directory(
    alloc: Global,
    environment: Environment<'_>,
) -> Result<String, AllocError>
    // It is `XDG_DATA_HOME`, or else what lies below `HOME`.
    ensures { IfOk result (λ path. string_bytes path ≡ own_directory (plain_environment environment.entry)) }
{
    match set(environment.data_home) {
        Some(path) => format!(in alloc; "{path}"),
        None => match set(environment.home) {
            Some(home) => format!(in alloc; "{home}/.local/share"),
            None => format!(in alloc; ""),
        },
    }
}

/// The directories of data that are not the user's own, with colons between them.
pub(crate) fn data_dirs_of<'a>(environment: Environment<'a>) -> &'a str
    // They are those of `XDG_DATA_DIRS`, or else the two that the specification names.
    ensures { result.now ≡ data_dirs_of (plain_environment environment.entry) }
{
    match set(environment.data_dirs) {
        Some(dirs) => dirs,
        None => "/usr/local/share:/usr/share",
    }
}

/// The user's own directory and then the others, each where its path is absolute.
pub(crate) fn all_directories<'a>(
    alloc: Global,
    own: &'a str,
    dirs: &'a str,
) -> Result<Vec<&'a str>, AllocError>
    // They are the absolute paths among them, the user's own first.
    ensures { IfOk result (λ v. texts v.items ≡ all_directories own.entry.now dirs.entry.now) }
{
    let directories = absolute_parts(alloc, dirs)?;
    if is_absolute(own) {
        with_first(own, directories)
    } else {
        Ok(directories)
    }
}

fn with_first<'a>(own: &'a str, others: Vec<&'a str>) -> Result<Vec<&'a str>, AllocError>
    ensures { IfOk result (λ v. texts v.items ≡ own.entry.now ∷ texts others.entry.items) }
{
    let mut directories = others;
    match directories.insert(0, own) {
        Ok(()) => Ok(directories),
        Err(_) => Err(AllocError),
    }
}

// The absolute parts of a list with colons.
fn absolute_parts<'a>(alloc: Global, dirs: &'a str) -> Result<Vec<&'a str>, AllocError>
    ensures { IfOk result (λ v. texts v.items ≡ absolute_parts dirs.entry.now) }
{
    dirs.split(':')
        .filter(|part| is_absolute(part))
        .collect(alloc)
}

fn is_absolute(path: &str) -> bool
    ensures { result ≡ is_absolute path.now }
{
    match path.as_bytes().first() {
        Some(byte) => *byte == b'/',
        None => false,
    }
}

// A variable that is set, and not empty.
fn set<'a>(variable: Option<&'a str>) -> Option<&'a str>
    ensures { option_map (λ s. s.now) result ≡ set (option_map (λ s. s.now) variable.entry) }
{
    match variable {
        Some(text) => unless_empty(text),
        None => None,
    }
}

fn unless_empty<'a>(text: &'a str) -> Option<&'a str>
    ensures { option_map (λ s. s.now) result ≡ unless_empty text.entry.now }
{
    if text.is_empty() { None } else { Some(text) }
}
