//! What the first line of some bytes changes, where it is of its form, with the bytes behind it.
ghost use Rattle.std.specs.Prelude.{◌≡◌, ◌<◌, ◌^◌, option_map};
ghost use Rattle.edit_script.specs.Reading.{line_at, changed_at, numbered_at, length_at, device_at, airflow_at, preset_at, free_at};

use crate::script::{Change, ScriptLine};
use duct_definitions::{MAX_DEVICE, MAX_FLOW, MAX_LENGTH};
use duct_units::Name;
use line_words::{cut, number_before};

/// The line at the front.
#[tactic(auto, unfolding(crate::specs::Reading::line_at))]
pub(crate) fn line_at(bytes: &[u8]) -> Option<(ScriptLine, &[u8])>
    ensures { option_map (λ found. (found.0, found.1.now)) result ≡ line_at bytes.now }
{
    let (word, rest) = cut(bytes, b' ')?;
    changed_at(word, rest)
}

/// What a line that begins with the word says behind it.
fn changed_at<'a>(word: &[u8], rest: &'a [u8]) -> Option<(ScriptLine, &'a [u8])>
    ensures { option_map (λ found. (found.0, found.1.now)) result ≡ changed_at word.now rest.now }
{
    if word == b"length".as_slice() {
        length_at(rest)
    } else if word == b"device".as_slice() {
        device_at(rest)
    } else if word == b"airflow".as_slice() {
        airflow_at(rest)
    } else if word == b"preset".as_slice() {
        preset_at(rest)
    } else if word == b"free".as_slice() {
        free_at(rest)
    } else {
        None
    }
}

/// A section, and the length that it is to have.
#[tactic(auto, unfolding(crate::specs::Reading::length_at))]
fn length_at(bytes: &[u8]) -> Option<(ScriptLine, &[u8])>
    ensures { option_map (λ found. (found.0, found.1.now)) result ≡ length_at bytes.now }
{
    let Some(((section, length), rest)) = numbered_at(bytes, MAX_LENGTH) else {
        return None;
    };
    let change = Change::Length(length);
    Some((ScriptLine { section, change }, rest))
}

/// A section, and the loss that its device is to have.
#[tactic(auto, unfolding(crate::specs::Reading::device_at))]
fn device_at(bytes: &[u8]) -> Option<(ScriptLine, &[u8])>
    ensures { option_map (λ found. (found.0, found.1.now)) result ≡ device_at bytes.now }
{
    let Some(((section, loss), rest)) = numbered_at(bytes, MAX_DEVICE) else {
        return None;
    };
    let change = Change::Device(loss);
    Some((ScriptLine { section, change }, rest))
}

/// A section, and the airflow that it is to have, which isn't 0.
#[tactic(auto, unfolding(crate::specs::Reading::airflow_at))]
fn airflow_at(bytes: &[u8]) -> Option<(ScriptLine, &[u8])>
    ensures { option_map (λ found. (found.0, found.1.now)) result ≡ airflow_at bytes.now }
{
    let Some(((section, flow), rest)) = numbered_at(bytes, MAX_FLOW) else {
        return None;
    };
    if flow == 0 {
        return None;
    }
    let change = Change::Airflow(flow);
    Some((ScriptLine { section, change }, rest))
}

/// A section, and a number of at most this.
#[tactic(auto, unfolding(crate::specs::Reading::numbered_at))]
fn numbered_at(bytes: &[u8], most: u64) -> Option<((Name, u64), &[u8])>
    requires { most < 2 ^ 63 }
    ensures { option_map (λ found. (found.0, found.1.now)) result ≡ numbered_at most bytes.now }
{
    let (section, rest) = cut(bytes, b' ')?;
    let section = Name::new(section)?;
    let (number, rest) = number_before(rest, b'\n', most)?;
    Some(((section, number), rest))
}

/// A section, and the size that it is to have.
#[tactic(auto, unfolding(crate::specs::Reading::preset_at))]
fn preset_at(bytes: &[u8]) -> Option<(ScriptLine, &[u8])>
    ensures { option_map (λ found. (found.0, found.1.now)) result ≡ preset_at bytes.now }
{
    let (section, rest) = cut(bytes, b' ')?;
    let section = Name::new(section)?;
    let (size, rest) = cut(rest, b'\n')?;
    let change = Change::Preset(Some(Name::new(size)?));
    Some((ScriptLine { section, change }, rest))
}

/// A section that may have any size of its list.
#[tactic(auto, unfolding(crate::specs::Reading::free_at))]
fn free_at(bytes: &[u8]) -> Option<(ScriptLine, &[u8])>
    ensures { option_map (λ found. (found.0, found.1.now)) result ≡ free_at bytes.now }
{
    let (section, rest) = cut(bytes, b'\n')?;
    let section = Name::new(section)?;
    let change = Change::Preset(None);
    Some((ScriptLine { section, change }, rest))
}
