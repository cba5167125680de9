//! Rounding up to a whole number.
ghost use Rattle.std.specs.Prelude.{◌≡◌, ◌<ℤ◌, pos};
ghost use Rattle.duct_units.specs.Ceiling.{ceiling, IsCeiling};

/// `n / d`, rounded up: 7 / 2 gives 4, and -7 / 2 gives -3.
pub fn ceil_div(n: i128, d: i128) -> i128
    requires { pos 0 <ℤ d }
    ensures ceiling { IsCeiling n d result }
    ensures value { result ≡ ceiling n d }
{
    // `/` rounds towards 0, which is up already where the fraction is negative.
    let quotient = n / d;
    if n % d > 0 { quotient + 1 } else { quotient }
}

#[cfg(test)]
mod tests {
    use super::*;

    #[test]
    fn a_fraction_goes_up(rt: HostRuntime) {
        let cases = [
            // 3.5 and -3.5
            (7, 2, 4),
            (-7, 2, -3),
            // -300.6
            (-3006, 10, -300),
            (0, 5, 0),
            (6, 3, 2),
            (-6, 3, -2),
            (1, i128::MAX, 1),
            (-1, i128::MAX, 0),
            (i128::MIN, 1, i128::MIN),
            (i128::MAX, 1, i128::MAX),
            // (2 ^ 127 - 1) / 2 is half a unit short of 2 ^ 126
            (i128::MAX, 2, 1 << 126),
            // -1 * MAX is MIN + 1, and -2 * MAX is below MIN
            (i128::MIN, i128::MAX, -1),
        ];
        for (n, d, ceiling) in cases {
            assert!(rt; d > 0, "{n} / {d}");
            assert_eq!(rt; ceil_div(n, d), ceiling, "{n} / {d}");
        }
    }
}
