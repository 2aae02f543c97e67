//! Twins: the rules that `globs2` gives beside case-sensitive ones, for older readers ("The glob
//! files"). That a cache may lack them is this project's own.

ghost use Rattle.mime_base.specs.Kept.Twins.{TwinsOfVisible};

/// The law of twins: those among the visible rules are those among all.
pub fn twins_of_visible()
    // Leaving out the twins of the visible rules leaves just the rules that are neither hidden nor a twin, among all.
    ensures { TwinsOfVisible }
{}
