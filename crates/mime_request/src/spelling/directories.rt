//! What DIRS names.

ghost use Rattle.std.specs.Prelude.{◌≡◌, [], ◌∷◌, ◌++◌, true};
ghost use Rattle.clap.specs.Walk.{Text};
ghost use Rattle.mime_request.specs.Request.{parts};
ghost use Rattle.mime_request.specs.Spelling.{is_path};

/// The parts of DIRS: an empty one counts for nothing, one path is itself, and a colon stands
/// between parts.
pub fn parts_of_directories()
    // An empty DIRS has no parts.
    ensures none { parts [] ≡ [] }

    // A path without a colon is the one part.
    ensures one { (path : Text) → is_path path ≡ true → parts path ≡ path ∷ [] }

    // Around a colon stand the parts of what is before it, and then those of what is after it.
    ensures more { (left right : Text) → parts (left ++ 58 ∷ right) ≡ parts left ++ parts right }
{}
