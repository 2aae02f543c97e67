//! What a run is given besides its words, files and sinks. This project's own.

use crate::environment::Environment;

/// What a run is given besides its words, files and sinks.
#[derive(Drop)]
pub struct Process<'a, I: Drop> {
    /// The variables that name data directories, or `None` where some variable of them is not text.
    pub environment: Option<Environment<'a>>,
    /// Standard input, which `--stdin` looks up, and which is the list of `--files0-from -`.
    pub input: I,
    /// Whether standard output is a terminal, to which `build` writes no cache.
    pub to_terminal: bool,
}
