//! What words ask for that name no file.

ghost use Rattle.std.specs.Prelude.{◌≡◌, List, [], ◌∷◌, codes};
ghost use Rattle.std.specs.List.{AllByRecursion};
ghost use Rattle.clap.specs.declared.error.kind.ErrorKind.TheVariants.{ArgumentConflict, DisplayHelp, DisplayVersion};
ghost use Rattle.clap.specs.declared.error.kind.ErrorKind.TheVariants.{InvalidSubcommand, MissingRequiredArgument, MissingSubcommand};
ghost use Rattle.clap.specs.Walk.{Text};
ghost use Rattle.mime_request.specs.Request.{meaning_of, refused};
ghost use Rattle.mime_request.specs.Spelling.{conflicting_words, help_words, lacking_words, version_words};

/// `--help` or `-h`, alone or after a command, asks for help, and so does `help` before one.
pub fn spellings_of_help()
    // Each flag is answered by help.
    ensures flags { AllByRecursion (λ words. meaning_of words ≡ refused (DisplayHelp ∷ [])) help_words }

    // `help`, whatever follows, is answered by help, or by the message on a command that there is none of.
    ensures command { (words : List Text) → meaning_of (codes "help" ∷ words) ≡ refused (DisplayHelp ∷ InvalidSubcommand ∷ []) }
{}

/// `--version` or `-V`, alone or after a command, asks for the version.
pub fn spellings_of_version()
    // Each flag is answered by the version.
    ensures { AllByRecursion (λ words. meaning_of words ≡ refused (DisplayVersion ∷ [])) version_words }
{}

/// No words at all are a mistake.
pub fn no_words()
    // A command is missing.
    ensures { meaning_of [] ≡ refused (MissingSubcommand ∷ []) }
{}

/// Words without what a command needs are a mistake.
pub fn words_that_lack()
    // Each of these words lacks an argument.
    ensures { AllByRecursion (λ words. meaning_of words ≡ refused (MissingRequiredArgument ∷ [])) lacking_words }
{}

/// So are both CACHE and DIRS, an option twice, and flags that can't be given together.
pub fn words_that_conflict()
    // Of each of these words two exclude each other.
    ensures { AllByRecursion (λ words. meaning_of words ≡ refused (ArgumentConflict ∷ [])) conflicting_words }
{}
