//! What the usual spellings of `build` ask for.

ghost use Rattle.std.specs.Prelude.{◌≡◌, Option, false, true};
ghost use Rattle.clap.specs.Walk.{Text};
ghost use Rattle.mime_request.specs.Request.{asks, build, directories_by, meaning_of, named, parts, user};
ghost use Rattle.mime_request.specs.Spelling.{build_words, build_words_of_user, build_words_output_first, build_words_without_twins};
ghost use Rattle.mime_request.specs.Spelling.{is_option, named_by, source_word};

/// `build -d DIRS -o FILE` asks for a cache of the directories of DIRS in their order, to be written
/// to this file.
pub fn usual_spelling_of_build()
    // For any DIRS and FILE that don't begin with a hyphen.
    ensures { (dirs file : Text) → is_option dirs ≡ false → is_option file ≡ false
        → meaning_of (build_words dirs file) ≡ asks (build (named (parts dirs)) false file) }
{}

/// `build -o FILE` asks for a cache of the user's directories.
pub fn spelling_of_build_of_user()
    // For any FILE that doesn't begin with a hyphen.
    ensures { (file : Text) → is_option file ≡ false
        → meaning_of (build_words_of_user file) ≡ asks (build user false file) }
{}

/// `build --drop-twins [-d DIRS] -o FILE` asks for a cache without twins, of the directories of DIRS
/// or of the user's.
pub fn spelling_of_build_without_twins()
    // For any DIRS and FILE that don't begin with a hyphen.
    ensures { (dirs : Option Text) (file : Text) → is_option (source_word (named_by dirs)) ≡ false → is_option file ≡ false
        → meaning_of (build_words_without_twins dirs file) ≡ asks (build (directories_by dirs) true file) }
{}

/// `build -o FILE -d DIRS` asks for the same.
pub fn output_first_spelling_of_build()
    // The order of the two options changes nothing.
    ensures { (dirs file : Text) → is_option dirs ≡ false → is_option file ≡ false
        → meaning_of (build_words_output_first dirs file) ≡ meaning_of (build_words dirs file) }
{}
