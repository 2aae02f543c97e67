//! What words ask for, and what is said of those that ask for nothing.

mod caches;
mod help;
mod refusals;
mod words;

use crate::tests::checked::alike;
use clap::Error;
use clap::error::ErrorKind;
use mime_request::{Request, request_of};
use std::alloc::Global;
use std::process::Abort;
use std::test::Fail;

/// The words of a line as a shell takes them, where `''` is an empty one.
fn words_of<'a>(alloc: Global, line: &'a str) -> Result<Vec<&'a str>, Fail> {
    let words = line
        .split(' ')
        .filter(|word| !word.is_empty())
        .map(|word| if word == "''" { "" } else { word });
    Ok(words.collect(alloc)?)
}

/// What answers words.
#[derive(Drop)]
struct Answer {
    /// Why they are refused, if they are.
    kind: Option<ErrorKind>,
    /// The request as `Debug` writes it, or what the error says.
    text: String,
}

fn of_request(alloc: Global, request: &Request<'_>) -> Result<Answer, Fail> {
    let text = format!(in alloc; "{request:?}")?;
    Ok(Answer { kind: None, text })
}

fn of_error(alloc: Global, error: &Error) -> Result<Answer, Fail> {
    let text = error.to_string(alloc)?;
    Ok(Answer {
        kind: Some(error.kind()),
        text,
    })
}

fn answer_of(alloc: Global, words: &[&str]) -> Result<Answer, Fail> {
    match request_of(alloc, words) {
        Ok(request) => of_request(alloc, &request),
        Err(error) => of_error(alloc, &error),
    }
}

/// What answers the words of a line.
fn answer_to(alloc: Global, line: &str) -> Result<Answer, Fail> {
    answer_of(alloc, &words_of(alloc, line)?)
}

/// Words, and the request that they are, as `Debug` writes it.
struct Asked {
    name: &'static str,
    words: &'static str,
    request: &'static str,
}

fn asks(rt: &impl Abort, alloc: Global, rows: &[Asked]) -> Result<(), Fail> {
    for row in rows {
        let answer = answer_to(alloc, row.words)?;
        alike(rt, row.name, answer.text.as_str(), row.request);
    }
    Ok(())
}
