//! Whole numbers in decimal, as files and words spell them.
ghost use Rattle.std.specs.Prelude.{◌≡◌, ◌≤ℤ◌, ℤ, IfSome, IfNone};
ghost use Rattle.duct_units.specs.Whole.{begins_as_number, whole_of, within, IsWhole};

use std::str;

/// The number that the bytes spell, where it lies from `low` to `high`. Both bounds count.
///
/// The spelling has no leading zero, no `+`, no space, and a `-` only before a number that isn't 0.
pub fn whole(bytes: &[u8], low: i64, high: i64) -> Option<i64>
    requires { low ≤ℤ high }
    ensures some { IfSome result (IsWhole bytes.now low high) }
    ensures none { IfNone result ((n : ℤ) → ¬ (IsWhole bytes.now low high n)) }
    ensures value { result ≡ whole_of bytes.now low high }
{
    within(spelled_number(bytes), low, high)
}

fn within(number: Option<i64>, low: i64, high: i64) -> Option<i64>
    ensures { result ≡ within low high number }
{
    let number = number?;
    (low <= number && number <= high).then_some(number)
}

// `parse` tests the digits, and it would also take a `+`, leading zeros and `-0`.
fn spelled_number(bytes: &[u8]) -> Option<i64>
    ensures { result ≡ whole_of bytes.now i64.MIN i64.MAX }
{
    if !begins_as_number(bytes) {
        return None;
    }
    str::from_utf8(bytes).ok()?.parse::<i64>().ok()
}

fn begins_as_number(bytes: &[u8]) -> bool
    ensures { result ≡ begins_as_number bytes.now }
{
    matches!(bytes, [b'0'] | [b'1'..=b'9', ..] | [b'-', b'1'..=b'9', ..])
}

#[cfg(test)]
mod tests {
    use super::*;
    use std::alloc::{AllocError, Global};
    use std::test::Fail;

    #[test]
    fn a_number_has_one_spelling(rt: HostRuntime) {
        let cases = [
            ("", None),
            ("-", None),
            ("0", Some(0)),
            ("00", None),
            ("-0", None),
            ("07", None),
            ("-07", None),
            ("7", Some(7)),
            ("+7", None),
            ("-5", Some(-5)),
            ("--5", None),
            (" 5", None),
            ("5 ", None),
            ("5.0", None),
            ("1e3", None),
            ("10", Some(10)),
            ("1\u{0}", None),
            ("\u{0661}", None),
        ];
        for (text, number) in cases {
            assert_eq!(rt;
                whole(text.as_bytes(), i64::MIN, i64::MAX),
                number,
                "at {text}"
            );
        }
        assert_eq!(rt;
            whole(&[b'1', 0xFF], i64::MIN, i64::MAX),
            None,
            "at bytes that are no text"
        );
    }

    // The bounds of 64 bits are 2 ^ 63 below 0 and one less above.
    #[test]
    fn both_bounds_count(rt: HostRuntime) {
        let cases = [
            ("9223372036854775807", i64::MIN, i64::MAX, Some(i64::MAX)),
            ("9223372036854775808", i64::MIN, i64::MAX, None),
            ("-9223372036854775808", i64::MIN, i64::MAX, Some(i64::MIN)),
            ("-9223372036854775809", i64::MIN, i64::MAX, None),
            ("999", 1000, 100_000_000, None),
            ("1000", 1000, 100_000_000, Some(1000)),
            ("100000000", 1000, 100_000_000, Some(100_000_000)),
            ("100000001", 1000, 100_000_000, None),
            ("-1", 0, 10, None),
            ("3", 3, 3, Some(3)),
        ];
        for (text, low, high, number) in cases {
            assert!(rt; low <= high, "at {text}");
            assert_eq!(rt; whole(text.as_bytes(), low, high), number, "at {text}");
        }
    }

    // By itself, so that no goal of a test holds the digits one by one.
    fn nines(alloc: Global) -> Result<Vec<u8>, AllocError> {
        vec![in alloc; b'9'; 100_000]
    }

    #[test]
    fn a_hundred_thousand_digits_are_above_every_bound(rt: HostRuntime) -> Result<(), Fail> {
        let digits = nines(rt.alloc())?;
        assert_eq!(rt; digits.len(), 100_000);
        assert_eq!(rt; whole(&digits, i64::MIN, i64::MAX), None);
        Ok(())
    }
}
