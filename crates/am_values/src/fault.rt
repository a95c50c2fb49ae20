//! Why two columns are no columns of values.
use thiserror::Error;

/// No values can be read from the two columns: the runs are bad, there are too many values, their lengths aren't those of
/// the raw bytes, or a kind doesn't allow its bytes.
#[derive(Clone, Copy, Debug, PartialEq, Eq, Error)]
#[error("the columns spell no list of so many values")]
pub struct BadValue;
