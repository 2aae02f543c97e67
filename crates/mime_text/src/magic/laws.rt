//! What holds of the definitions that the reader's contract cites. These functions do nothing.

ghost use Rattle.std.specs.Prelude.{◌≡◌, ◌⊎◌, ◌↔◌, ◌++◌, ℕ, List, None, Some};
ghost use Rattle.mime_text.specs.Magic.FaultTable.{CanEnd, CanGoOn, EndsInMarker, HasFault, IsFinal, IsOpen};
ghost use Rattle.mime_text.specs.Magic.Entries.{PlainFlatSection};
ghost use Rattle.mime_text.specs.Magic.Forest.{IsByRuns, forest};
ghost use Rattle.mime_text.specs.Magic.Reading.{magic_fault};
ghost use Rattle.mime_text.specs.Magic.Text.{MagicText};
ghost use Rattle.mime_text.specs.declared.magic.fault.MagicFault.{MagicFault};
ghost use Rattle.mime_text.specs.declared.magic.fault.MagicFault.TheVariants.{Malformed};
ghost use Rattle.mime_text.specs.declared.magic.fault.MagicFaultKind.TheVariants.{Truncated};

/// Each text spells sections or has a fault, never both, and no two lists of sections.
pub fn magic_text_or_fault()
    // Each text spells some list of sections, or has a fault.
    ensures either { (text : List ℕ) → ((flat_sections : List PlainFlatSection) × MagicText text flat_sections)
        ⊎ ((fault : MagicFault) × (magic_fault text ≡ Some fault)) }
    // A text that spells sections has no fault.
    ensures never_both { (text : List ℕ) (flat_sections : List PlainFlatSection) → MagicText text flat_sections →
        magic_fault text ≡ None }
    // No text spells two lists of sections.
    ensures one_list { (text : List ℕ) (a b : List PlainFlatSection) →
        MagicText text a → MagicText text b → a ≡ b }
{}

/// What the forest of entries is, by the run of deeper entries after an entry.
pub fn forest_is_by_runs()
    // The forest of no entries is bare, and the deeper entries right after an entry are the forest of its children.
    ensures { IsByRuns forest }
{}

/// A text has the fault that the table gives it, exactly where reading it up to the first fault
/// gives that.
pub fn fault_is_by_table()
    // The first fault that reading finds is the one that the table gives.
    ensures found { (text : List ℕ) (fault : MagicFault) →
        magic_fault text ≡ Some fault → HasFault text fault }
    // The fault that the table gives is the first that reading finds.
    ensures only { (text : List ℕ) (fault : MagicFault) →
        HasFault text fault → magic_fault text ≡ Some fault }
{}

/// A fault that isn't of a cut or a missing header stays whatever is appended, unless the text ends
/// inside a deletion marker: `>0_` has no `=` after its start, and `>0__NOMAGIC__` is a marker.
pub fn faults_stay()
    // A fault other than `Truncated` and `NoHeader` stays whatever is appended, unless the text ends inside a marker.
    ensures { (text more : List ℕ) (fault : MagicFault) → HasFault text fault →
        IsFinal fault → HasFault (text ++ more) fault ⊎ EndsInMarker text }
{}

/// Something can be appended that makes a text whole or gives it another fault, exactly where it is
/// truncated, or ends inside the header or a deletion marker. A truncated text can be ended: it can
/// become whole, or get a fault that stays.
pub fn truncated_can_go_on()
    // Something appended ends or changes a fault exactly where the text is cut, or ends in the header or a marker.
    ensures goes_on { (text : List ℕ) (fault : MagicFault) → HasFault text fault →
        CanGoOn text fault ↔ IsOpen text fault }
    // Something can be appended to a truncated text that makes it whole or gives it a fault that stays.
    ensures ends { (text : List ℕ) (at : ℕ) → HasFault text (Malformed Truncated at) → CanEnd text }
{}
