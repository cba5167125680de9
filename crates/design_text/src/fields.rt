//! What the first line of some bytes says, where it is of its form, with the bytes behind it.
ghost use Rattle.std.specs.Prelude.{◌≡◌, ◌≤◌, option_map, IfSome};
ghost use Rattle.design_text.specs.Fields.{name_at, number_at, numbers_at, form_at, fan_at, section_at};

use crate::words::number_before;
use duct_definitions::{ListedFan, ListedSection};
use duct_units::Name;
use line_words::{after_word, cut};

/// The form of a text: 1 with one fan, 2 with a return fan.
#[tactic(auto, unfolding(crate::specs::Fields::form_at))]
pub(crate) fn form_at(bytes: &[u8]) -> Option<(u64, &[u8])>
    ensures value { option_map (λ found. (found.0, found.1.now)) result ≡ form_at bytes.now }
    ensures bounds { IfSome result (λ found. (1 ≤ found.0) × (found.0 ≤ 2)) }
{
    let (form, rest) = number_at(bytes, b"design")?;
    if 1 <= form && form <= 2 {
        Some((form, rest))
    } else {
        None
    }
}

/// The name on a line that begins with the word.
#[tactic(auto, unfolding(crate::specs::Fields::name_at))]
pub(crate) fn name_at<'a>(bytes: &'a [u8], word: &[u8]) -> Option<(Name, &'a [u8])>
    ensures { option_map (λ found. (found.0, found.1.now)) result ≡ name_at word.now bytes.now }
{
    let rest = after_word(bytes, word, b' ')?;
    let (name, rest) = cut(rest, b'\n')?;
    Some((Name::new(name)?, rest))
}

/// The number on a line that begins with the word.
#[tactic(auto, unfolding(crate::specs::Fields::number_at))]
pub(crate) fn number_at<'a>(bytes: &'a [u8], word: &[u8]) -> Option<(u64, &'a [u8])>
    ensures { option_map (λ found. (found.0, found.1.now)) result ≡ number_at word.now bytes.now }
{
    number_before(after_word(bytes, word, b' ')?, b'\n')
}

/// The two numbers on a line that begins with the word.
#[tactic(auto, unfolding(crate::specs::Fields::numbers_at))]
pub(crate) fn numbers_at<'a>(bytes: &'a [u8], word: &[u8]) -> Option<((u64, u64), &'a [u8])>
    ensures { option_map (λ found. (found.0, found.1.now)) result ≡ numbers_at word.now bytes.now }
{
    let rest = after_word(bytes, word, b' ')?;
    let (first, rest) = number_before(rest, b' ')?;
    let (second, rest) = number_before(rest, b'\n')?;
    Some(((first, second), rest))
}

/// The fan on a line that begins with the word.
#[tactic(auto, unfolding(crate::specs::Fields::fan_at))]
pub(crate) fn fan_at<'a>(bytes: &'a [u8], word: &[u8]) -> Option<(ListedFan, &'a [u8])>
    ensures { option_map (λ found. (found.0, found.1.now)) result ≡ fan_at word.now bytes.now }
{
    let rest = after_word(bytes, word, b' ')?;
    let (name, rest) = cut(rest, b' ')?;
    let name = Name::new(name)?;
    let (pressure, rest) = number_before(rest, b' ')?;
    let (cost, rest) = number_before(rest, b'\n')?;
    let fan = ListedFan {
        name,
        pressure,
        cost,
    };
    Some((fan, rest))
}

/// The section on a section's line.
#[tactic(auto, unfolding(crate::specs::Fields::section_at))]
pub(crate) fn section_at(bytes: &[u8]) -> Option<(ListedSection, &[u8])>
    ensures { option_map (λ found. (found.0, found.1.now)) result ≡ section_at bytes.now }
{
    let rest = after_word(bytes, b"section", b' ')?;
    let (name, rest) = cut(rest, b' ')?;
    let name = Name::new(name)?;
    let (size, rest) = cut(rest, b' ')?;
    let size = Name::new(size)?;
    let (loss, rest) = number_before(rest, b' ')?;
    let (price, rest) = number_before(rest, b' ')?;
    let (damper, rest) = number_before(rest, b'\n')?;
    let section = ListedSection {
        name,
        size,
        loss,
        price,
        damper,
    };
    Some((section, rest))
}
