//! What the usual spellings of the commands over a cache ask for.

ghost use Rattle.std.specs.Prelude.{◌≡◌, ◌<◌, ◌^◌, ◌++◌, List, false, length, true};
ghost use Rattle.clap.specs.Walk.{Text};
ghost use Rattle.mime_request.specs.Request.{PlainSubjects, asks, check, explain, icon, is_a, list, meaning_of, of_files, type_of};
ghost use Rattle.mime_request.specs.Spelling.{AreUsual, Flag, Named, are_plain, check_words, explain_words, icon_words, is_a_words, is_option, list_words};
ghost use Rattle.mime_request.specs.Spelling.{no_options, options_by, source_word, source_of, type_words};

/// `list [-c CACHE | -d DIRS]` asks for the rules of this cache, or of one made of these directories
/// or of the user's.
pub fn usual_spelling_of_list()
    // For any CACHE or DIRS that doesn't begin with a hyphen, and without either.
    ensures { (by : Named) → is_option (source_word by) ≡ false
        → meaning_of (list_words by) ≡ asks (list (source_of by)) }
{}

/// `check [-c CACHE | -d DIRS]` asks whether this cache spells a database, or one made of these
/// directories or of the user's.
pub fn usual_spelling_of_check()
    // For any CACHE or DIRS that doesn't begin with a hyphen, and without either.
    ensures { (by : Named) → is_option (source_word by) ≡ false
        → meaning_of (check_words by) ≡ asks (check (source_of by)) }
{}

/// `explain [-c CACHE | -d DIRS] FILE...` asks why these files have their types, by this cache, or by
/// one made of these directories or of the user's.
pub fn usual_spelling_of_explain()
    // For any CACHE or DIRS and any FILEs, at least one, that don't begin with a hyphen.
    ensures { (by : Named) (files : List Text) → is_option (source_word by) ≡ false → are_plain (of_files files) ≡ true
        → length files < 2 ^ 64 → meaning_of (explain_words by files) ≡ asks (explain (source_of by) no_options files) }
{}

/// `isa [-c CACHE | -d DIRS] TYPE BASE` asks, by this cache, whether TYPE is BASE.
pub fn usual_spelling_of_is_a()
    // For any words that don't begin with a hyphen.
    ensures { (by : Named) (kind base : Text) → is_option (source_word by) ≡ false
        → is_option kind ≡ false → is_option base ≡ false
        → meaning_of (is_a_words by kind base) ≡ asks (is_a (source_of by) kind base) }
{}

/// `icon [-c CACHE | -d DIRS] TYPE` asks for the icons of TYPE, by this cache.
pub fn usual_spelling_of_icon()
    // For any words that don't begin with a hyphen.
    ensures { (by : Named) (kind : Text) → is_option (source_word by) ≡ false → is_option kind ≡ false
        → meaning_of (icon_words by kind) ≡ asks (icon (source_of by) kind) }
{}

/// `type [-c CACHE | -d DIRS] FILE...`, with flags before the source or after it, asks for these
/// files, from this cache, with just these flags; with `--stdin NAME` in place of FILEs for standard
/// input under this name; and with `--files0-from LIST` for the files of this list.
pub fn usual_spelling_of_type()
    // For any flags, and any words that don't begin with a hyphen.
    ensures { (by : Named) (before after : List Flag) (subjects : PlainSubjects)
        → AreUsual (source_word by) (before ++ after) subjects
        → meaning_of (type_words by before after subjects) ≡ asks (type_of (source_of by) (options_by (before ++ after)) subjects) }
{}
