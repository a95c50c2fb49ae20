//! Sums and products that are wide enough.
ghost use Rattle.std.specs.Prelude.{◌≡◌, ℤ, ◌+ℤ◌, ◌*ℤ◌, FitsSigned, pos, SomeIff};
ghost use Rattle.std.specs.Int.{w64, w128};

pub fn sum_of(value: i64, difference: i64) -> i64
    requires { FitsSigned w64 (value +ℤ difference) }
    ensures { result ≡ value +ℤ difference }
{
    value + difference
}

pub fn times(k: u64, difference: i64) -> Option<i128>
    ensures { SomeIff result (FitsSigned w128 (pos k *ℤ difference)) (pos k *ℤ difference) }
{
    i128::from(k).checked_mul(i128::from(difference))
}

pub fn narrow(n: i128) -> i64
    requires { FitsSigned w64 n }
    ensures { result ≡ n }
{
    n as i64
}
