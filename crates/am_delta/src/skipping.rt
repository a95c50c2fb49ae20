//! Going on by many differences at once.
ghost use Rattle.std.specs.Prelude.{◌≡◌, take, drop, FitsSigned};
ghost use Rattle.std.specs.Int.{w64};
ghost use Rattle.am_delta.specs.Deltas.{AllFit, sums_from, last_from, sum_after};

use crate::arithmetic::times;
use am_runs::SignedCursor;

/// The sum after k times this difference.
pub fn value_after(value: i64, difference: Option<i64>, k: u64) -> i64
    requires { FitsSigned w64 (sum_after value difference k) }
    ensures { result ≡ sum_after value difference k }
{
    if k == 0 {
        return value;
    }
    match difference {
        None => value,
        Some(difference) => match times(k, difference) {
            None => value,
            Some(way) => (i128::from(value) + way) as i64,
        },
    }
}

/// Leaves out the next n differences, and gives the sum behind them.
pub fn sum_behind(differences: &mut SignedCursor<'_>, value: i64, n: u64) -> i64
    requires { AllFit (sums_from value differences.old) }
    ensures fit { AllFit (sums_from result differences.new) }
    ensures drops { sums_from result differences.new ≡ drop n (sums_from value differences.old) }
    ensures last { result ≡ last_from value (sums_from value (take n differences.old)) }
{
    let mut value = value;
    let mut n = n;
    while n > 0 {
        match differences.next_alike_within(n) {
            None => return value,
            Some((difference, k)) => {
                value = value_after(value, difference, k);
                n -= k;
            }
        }
    }
    value
}
