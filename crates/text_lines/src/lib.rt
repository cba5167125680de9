//! A text that grows by lines of words, for whoever prints.
//!
//! The words of a line are parted by one space, and a line feed ends it; a number is a word in plain decimals
//! (docs/FORMATS.md, "What is written").
#![tactic(auto)]

ghost use Rattle.std.specs.Prelude.{◌≡◌, ◌++◌, map, [], ◌∷◌, OnOk, IfOk, string_bytes};
ghost use Rattle.std.specs.Fmt.{decimal};
ghost use Rattle.duct_units.specs.Lines.{line};

use duct_units::{List, NoMemory};
use std::alloc::Global;
use std::marker::Model;

/// Lines, each ended by a line feed. Where memory runs out a text can only be dropped.
#[derive(Drop)]
pub struct Text {
    bytes: Vec<u8>,
}

impl Model for Text {
    ghost use Rattle.std.specs.Prelude.{ℕ, List as Sequence};

    ghost Value = { Sequence ℕ };

    ghost view = { λ text. text.bytes.items };
}

impl Text {
    /// No lines yet; takes no memory.
    pub fn new(alloc: Global) -> Text
        ensures { result ≡ [] }
    {
        Text {
            bytes: Vec::new(alloc),
        }
    }

    /// Adds a line of words parted by one space.
    pub fn line(&mut self, first: &[u8], words: &[&[u8]]) -> Result<(), NoMemory>
        ensures { OnOk result (self.new ≡ self.old ++ line first.now (map (λ word. word.now) words.now)) }
    {
        add_line(&mut self.bytes, first, words)
    }

    /// Adds a line of a word and numbers.
    pub fn numbers(&mut self, alloc: Global, first: &[u8], numbers: &[u64]) -> Result<(), NoMemory>
        ensures { OnOk result (self.new ≡ self.old ++ line first.now (map (λ n. decimal n) numbers.now)) }
    {
        add_numbers(alloc, &mut self.bytes, first, numbers)
    }

    /// The bytes of the lines.
    pub fn into_list(self) -> List<u8>
        ensures { result ≡ self }
    {
        let Text { bytes } = self;
        List::from_vec(bytes)
    }
}

/// The bytes of one line of words parted by one space.
pub fn one_line(alloc: Global, first: &[u8], words: &[&[u8]]) -> Result<List<u8>, NoMemory>
    ensures { IfOk result (λ bytes. bytes ≡ line first.now (map (λ word. word.now) words.now)) }
{
    let mut text = Text::new(alloc);
    text.line(first, words)?;
    Ok(text.into_list())
}

fn add_line(bytes: &mut Vec<u8>, first: &[u8], words: &[&[u8]]) -> Result<(), NoMemory>
    ensures { OnOk result (bytes.new.items ≡ bytes.old.items ++ line first.now (map (λ word. word.now) words.now)) }
{
    add(bytes, first)?;
    for word in words {
        add_word(bytes, word)?;
    }
    add(bytes, b"\n")
}

fn add_numbers(
    alloc: Global,
    bytes: &mut Vec<u8>,
    first: &[u8],
    numbers: &[u64],
) -> Result<(), NoMemory>
    ensures { OnOk result (bytes.new.items ≡ bytes.old.items ++ line first.now (map (λ n. decimal n) numbers.now)) }
{
    add(bytes, first)?;
    for n in numbers {
        add_word(bytes, number(alloc, *n)?.as_bytes())?;
    }
    add(bytes, b"\n")
}

fn add_word(bytes: &mut Vec<u8>, word: &[u8]) -> Result<(), NoMemory>
    ensures { OnOk result (bytes.new.items ≡ bytes.old.items ++ 32 ∷ word.now) }
{
    add(bytes, b" ")?;
    add(bytes, word)
}

fn add(bytes: &mut Vec<u8>, more: &[u8]) -> Result<(), NoMemory>
    ensures { OnOk result (bytes.new.items ≡ bytes.old.items ++ more.now) }
{
    bytes.extend_from_slice(more).map_err(|_| NoMemory)
}

/// A number in plain decimals.
pub fn number(alloc: Global, n: u64) -> Result<String, NoMemory>
    ensures { IfOk result (λ text. string_bytes text ≡ decimal n) }
{
    n.to_string(alloc).map_err(|_| NoMemory)
}
