//! `Request`: a question, as its words ask it.
//!
//! `Requests::of` reads all words; it answers none where a word cannot stand.

use std::alloc::{AllocError, Global};
use vx_digits::number;

/// A question. Values are still words.
#[derive(Clone, Copy, Debug)]
pub(crate) enum Request<'a> {
    /// The form of a pointer, or of the pointer of a load or store, as its user sees it.
    Form { pointer: &'a str, user: &'a str },
    /// Whether two instructions conflict.
    Conflict { first: &'a str, second: &'a str },
    /// The instructions that end at the last of these.
    Reach { stores: &'a [String] },
    /// The order of the window of bundles; each word is a bundle, with commas between its members.
    Order { bundles: &'a [String] },
}

/// All that is asked.
#[derive(Debug, Drop)]
pub(crate) struct Requests<'a> {
    /// How often each question is asked; it is answered once.
    pub(crate) times: u64,
    pub(crate) requests: Vec<Request<'a>>,
}

/// The question of some words.
fn request_of(words: &[String]) -> Option<Request<'_>> {
    let [kind, operands @ ..] = words else {
        return None;
    };
    match (kind.as_str(), operands) {
        ("form", [pointer]) => Some(Request::Form {
            pointer: pointer.as_str(),
            user: pointer.as_str(),
        }),
        ("form", [pointer, user]) => Some(Request::Form {
            pointer: pointer.as_str(),
            user: user.as_str(),
        }),
        ("conflict", [first, second]) => Some(Request::Conflict {
            first: first.as_str(),
            second: second.as_str(),
        }),
        ("reach", [_, ..]) => Some(Request::Reach { stores: operands }),
        ("order", [_, ..]) => Some(Request::Order { bundles: operands }),
        _ => None,
    }
}

/// How often all is asked, and the words after that.
fn repeated(words: &[String]) -> Option<(u64, &[String])> {
    match words {
        [first, times, after @ ..] if first.as_str() == "repeat" => {
            let times = number(times.as_bytes())?;
            Some((times, after))
        }
        _ => Some((1, words)),
    }
}

impl<'a> Requests<'a> {
    /// The questions of some words, if they ask any.
    pub(crate) fn of(
        alloc: Global,
        words: &'a [String],
    ) -> Result<Option<Requests<'a>>, AllocError> {
        let Some((times, words)) = repeated(words) else {
            return Ok(None);
        };
        let mut requests = Vec::new(alloc);
        for words in words.split(|word| word.as_str() == "/") {
            let Some(request) = request_of(words) else {
                return Ok(None);
            };
            requests.push(request)?;
        }
        Ok(Some(Requests { times, requests }))
    }
}
