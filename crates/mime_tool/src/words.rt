//! Words of the command line that are no text. This project's own.

ghost use Rattle.std.specs.Prelude.{◌≡◌, [], bytes_eq};
ghost use Rattle.std.specs.List.{list_any};
ghost use Rattle.clap.specs.Walk.{texts};
ghost use Rattle.mime_tool.specs.Desk.{Does, EndsOverFiles, Works};
ghost use Rattle.mime_tool.specs.Run.{mistaken, said};
ghost use Rattle.mime_tool.specs.Words.{misplaced, name_of, not_text};

use crate::desk::Desk;
use crate::status::MISTAKEN;
use crate::stop::Stop;

/// A word that is no text, and the text that stands in for it among the others.
#[derive(Clone, Copy)]
pub struct RawWord<'a> {
    /// Which word it is, counted from 1 after the program's name.
    pub number: u64,
    /// No other word is this text. It begins with a hyphen where the word does.
    pub stand_in: &'a str,
    /// The word.
    pub bytes: &'a [u8],
}

/// The name of a FILE: the word that its text stands in for, or the text.
pub(crate) fn name_of<'a>(raws: &[RawWord<'a>], text: &'a str) -> &'a [u8]
    // It is the bytes of the first word that it stands in for, else itself.
    ensures { result.now ≡ name_of raws.entry.now text.entry.now }
{
    for raw in raws {
        if text == raw.stand_in {
            return raw.bytes;
        }
    }
    text.as_bytes()
}

/// The number of the first word that is none of these FILEs, if there is one.
pub(crate) fn misplaced(raws: &[RawWord<'_>], files: &[&str]) -> Option<u64>
    // It is that of the first word whose stand-in is not among them.
    ensures { result ≡ misplaced raws.now (texts files.now) }
{
    for raw in raws {
        if !is_among(files, raw.stand_in) {
            return Some(raw.number);
        }
    }
    None
}

fn is_among(files: &[&str], text: &str) -> bool
    ensures { result ≡ list_any (λ file. bytes_eq file text.now) (texts files.now) }
{
    for file in files {
        if *file == text {
            return true;
        }
    }
    false
}

/// Says that the word of this number is no text, and gives the status.
pub(crate) fn refuse_word<D: Desk>(desk: &mut D, number: u64) -> Result<u8, Stop>
    // The message has the number, and the words are mistaken.
    ensures { Works (EndsOverFiles (λ _ run. run ≡ mistaken (not_text number)) [])
        (D.state desk.old) (D.state desk.new) result }
{
    report_word(desk, number)?;
    Ok(MISTAKEN)
}

fn report_word<D: Desk>(desk: &mut D, number: u64) -> Result<(), Stop>
    ensures { Works (Does (said (not_text number))) (D.state desk.old) (D.state desk.new) result }
{
    let text = format!(in desk.alloc(); "mimelook: word {number} is not text (UTF-8)\n")?;
    desk.complain(text.as_bytes())
}
