//! What the usual spellings of `plain` ask for.

ghost use Rattle.std.specs.Prelude.{◌≡◌, ◌++◌, List, Option, codes, false};
ghost use Rattle.clap.specs.Walk.{Text};
ghost use Rattle.mime_request.specs.Request.{PlainSubjects, asks, directories_by, meaning_of, plain};
ghost use Rattle.mime_request.specs.Spelling.{AreUsual, Flag, has, named_by, options_by, plain_words, source_word};

/// `plain [-d DIRS] FILE...`, with flags before DIRS or after it, asks for these files, from the
/// directories of DIRS in their order or from the user's, with just these flags; with `--stdin NAME` in
/// place of FILEs for standard input under this name; and with `--files0-from LIST` for the files of this list.
pub fn usual_spelling_of_plain()
    // For any flags but `--cost`, and any words that don't begin with a hyphen.
    ensures { (dirs : Option Text) (before after : List Flag) (subjects : PlainSubjects)
        → AreUsual (source_word (named_by dirs)) (before ++ after) subjects → has (codes "cost") (before ++ after) ≡ false
        → meaning_of (plain_words dirs before after subjects) ≡ asks (plain (directories_by dirs) (options_by (before ++ after)) subjects) }
{}
