//! Words at the front of some bytes, for whoever reads lines. What is found comes with the bytes behind it.
//!
//! A word reaches to the first byte that ends it, a space inside a line and a line feed at its end. Nothing is copied.
#![tactic(auto)]

ghost use Rattle.std.specs.Prelude.{◌≡◌, ◌==◌, ◌<◌, ◌≤◌, ◌^◌, length, option_map, IfSome};
ghost use Rattle.std.specs.List.{position_from};
ghost use Rattle.line_words.specs.Words.{cut, after_word, number_before};

use duct_units::whole;

/// The bytes before the first byte `end`, and those behind it.
pub fn cut(bytes: &[u8], end: u8) -> Option<(&[u8], &[u8])>
    ensures { option_map (λ found. (found.0.now, found.1.now)) result ≡ cut end bytes.now }
{
    let at = place_of(bytes, end)?;
    Some((&bytes[..at], &bytes[at + 1..]))
}

/// The place of the first byte `end`.
fn place_of(bytes: &[u8], end: u8) -> Option<usize>
    ensures value { result ≡ position_from (λ byte. byte == end) 0 bytes.now }
    ensures within { IfSome result (λ at. at < length bytes.now) }
{
    bytes.iter().position(|byte| *byte == end)
}

/// The bytes behind this word and the byte `end`.
pub fn after_word<'a>(bytes: &'a [u8], word: &[u8], end: u8) -> Option<&'a [u8]>
    ensures { option_map (λ rest. rest.now) result ≡ after_word word.now end bytes.now }
{
    let (found, rest) = cut(bytes, end)?;
    if found == word { Some(rest) } else { None }
}

/// The number of at most this before the first byte `end`.
pub fn number_before(bytes: &[u8], end: u8, most: u64) -> Option<(u64, &[u8])>
    requires { most < 2 ^ 63 }
    ensures { option_map (λ found. (found.0, found.1.now)) result ≡ number_before most end bytes.now }
{
    let (found, rest) = cut(bytes, end)?;
    let number = whole(found, 0, most as i64)?;
    Some((number.unsigned_abs(), rest))
}
