//! Rules that are never kept, whatever the name. That they may be left out is this project's own.

ghost use Rattle.mime_base.specs.Kept.Hidden.{SpellingsFoldAlike, VisibleIsEnough};

/// The law of hidden rules: for every name those that are kept of the visible rules are those that
/// are kept of all.
pub fn visible_is_enough()
    // Whatever the name, leaving hidden rules out changes none of those that are kept.
    ensures enough { VisibleIsEnough }
    // A rule's pattern is sought in each spelling that folds as it does, and in no other text.
    ensures spellings { SpellingsFoldAlike }
{}
