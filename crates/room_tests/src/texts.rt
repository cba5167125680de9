//! Files as the tables spell them.
//!
//! \n, \r and \0 are what they are in Rust, \B is a byte order mark and \F the byte 255, and a table has words of its
//! own. "`3 of x#`" is x1x2x3; within it "~2 of @~" is 12.

use std::alloc::{AllocError, Global};
use std::test::Fail;

const WORDS: [(&str, &str); 5] = [
    (r"\n", "\n"),
    (r"\r", "\r"),
    (r"\0", "\0"),
    (r"\B", "\u{EF}\u{BB}\u{BF}"),
    (r"\F", "\u{FF}"),
];

/// The bytes of a file, with what stands for others written out, the words of the table first.
pub fn file(alloc: Global, text: &str, words: &[(&str, &str)]) -> Result<Vec<u8>, Fail> {
    let text = with_words(alloc, text, words)?;
    let text = with_words(alloc, text.as_str(), &WORDS)?;
    let text = repeated(alloc, text.as_str(), '`', '#')?;
    let text = repeated(alloc, text.as_str(), '~', '@')?;
    Ok(bytes(alloc, text.as_str())?)
}

fn with_words(alloc: Global, text: &str, words: &[(&str, &str)]) -> Result<String, AllocError> {
    let mut text = String::from_str(alloc, text)?;
    for (word, meant) in words {
        text = text.replace(alloc, word, meant)?;
    }
    Ok(text)
}

/// The text, with each `N of ..` between two marks written N times.
fn repeated(alloc: Global, text: &str, mark: char, sign: char) -> Result<String, Fail> {
    let mut all = String::new(alloc);
    for part in text.split(mark) {
        match part.split_once(" of ") {
            Some((count, item)) => push_items(alloc, &mut all, count.parse::<u32>()?, item, sign)?,
            None => all.push_str(part)?,
        }
    }
    Ok(all)
}

/// So many of the item, with the number of each from 1 in place of the sign.
fn push_items(
    alloc: Global,
    all: &mut String,
    count: u32,
    item: &str,
    sign: char,
) -> Result<(), AllocError> {
    for n in 1..=count {
        let number = format!(in alloc; "{n}")?;
        let item = item.replace(alloc, sign, number.as_str())?;
        all.push_str(item.as_str())?;
    }
    Ok(())
}

/// A byte for each letter: the one of its number.
fn bytes(alloc: Global, text: &str) -> Result<Vec<u8>, AllocError> {
    text.chars()
        .map(|letter| u8::try_from(letter).unwrap_or(b'?'))
        .collect(alloc)
}
