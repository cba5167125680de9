//! Words and numbers at the beginning of some bytes.
ghost use Rattle.std.specs.Prelude.{◌≡◌, ℕ, List, ◌<◌, ◌≤◌, ◌^◌, ◌++◌, IfSome, IfNone, length, take, drop, option_map, true};
ghost use Rattle.std.specs.Str.{all_ascii_digits};
ghost use Rattle.front_certificate.specs.Reading.{IsOnly, IsNumberAt, IsEnded};

use duct_units::whole;

/// The bytes behind this word, where they begin with it.
pub(crate) fn behind<'a>(bytes: &'a [u8], word: &[u8]) -> Option<&'a [u8]>
    ensures some { IfSome result (λ rest. bytes.now ≡ word.now ++ rest.now) }
    ensures none { IfNone result ((rest : List ℕ) → ¬ (bytes.now ≡ word.now ++ rest)) }
{
    if bytes.len() < word.len() {
        return None;
    }
    let (front, rest) = bytes.split_at(word.len());
    if front == word { Some(rest) } else { None }
}

/// The number of at most this at the beginning, up to the first byte that is no digit, and the rest.
pub(crate) fn number_at(bytes: &[u8], most: u64) -> Option<(u64, &[u8])>
    requires { most < 2 ^ 63 }
    ensures { IsOnly (IsNumberAt most bytes.now) (option_map (λ found. (found.0, found.1.now)) result) }
{
    let (word, rest) = bytes.split_at(digits(bytes));
    let number = whole(word, 0, most as i64)?;
    Some((number.unsigned_abs(), rest))
}

/// How many digits stand at the beginning.
fn digits(bytes: &[u8]) -> usize
    ensures within { result ≤ length bytes.now }
    ensures digits { all_ascii_digits (take result bytes.now) ≡ true }
    ensures ended { IsEnded (drop result bytes.now) }
{
    let mut end = 0;
    while end < bytes.len() && bytes[end].is_ascii_digit() {
        end += 1;
    }
    end
}
