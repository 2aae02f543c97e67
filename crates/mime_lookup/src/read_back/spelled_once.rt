//! What is read back of a cache is all that it spells.

ghost use Rattle.mime_lookup.specs.SpelledOnce.{CandidatesOnce, KeptOnce};

/// The law of what a cache spells: whatever databases it spells, a name has the same types.
pub fn spelled_once()
    // The types of the kept rules are the same.
    ensures kept { KeptOnce }
    // So are those of all rules that match.
    ensures candidates { CandidatesOnce }
{}
