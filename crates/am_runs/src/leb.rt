//! Kinds of numbers, unsigned and signed, each in its shortest LEB128.
ghost use Rattle.std.specs.Prelude.{◌≡◌, ◌-◌, ◌<◌, ◌≤◌, ◌∷◌, [], ℕ, List, Option, None, Some, false, suc, get_or, length, take, drop, IfSome};
ghost use Rattle.std.specs.Option.{option_map};
ghost use Rattle.am_runs.specs.Items.{ReadsItems, IsItem, IsLast};

use crate::value::low_number;
use am_leb::{read_i, read_u};

/// A kind of number, known by how numbers are spelled. Bytes join numbers of the kind where
/// `JoinsRuns end_of bytes (map (option_map spelling) values)` holds (specs/Runs.antt): they are the bytes of runs
/// whose items are the spellings, and a null is None.
pub trait Number {
    /// What an item spells.
    type Value: Copy;

    /// The length of the number that begins the bytes; None where none does.
    ghost end_of: { List ℕ → Option ℕ };

    /// The number that an item spells.
    ghost value_of: { List ℕ → Self.Value };

    /// The item that spells a number.
    ghost spelling: { Self.Value → List ℕ };

    /// The number that begins the bytes, and how many bytes it takes there.
    fn first(bytes: &[u8]) -> Option<(Self::Value, usize)>
        ensures end { option_map (λ r. r.1) result ≡ end_of bytes.now }
        ensures value { IfSome result (λ r. r.0 ≡ value_of (take r.1 bytes.now)) }
        ensures within { IfSome result (λ r. r.1 ≤ length bytes.now) };

    /// The number of one byte that begins the bytes.
    fn low(bytes: &[u8]) -> Self::Value
        requires some { 0 < length bytes.now }
        requires low { get_or bytes.now 0 0 < 128 }
        ensures end { Some 1 ≡ end_of bytes.now }
        ensures value { result ≡ value_of (take 1 bytes.now) };

    /// Whether the byte at `i`, if it is the last of the number that begins at `start`, is one too many: a shorter spelling does without it.
    fn is_spare(bytes: &[u8], start: usize, i: usize) -> bool
        requires begun { start ≤ i }
        requires inside { i < length bytes.now }
        ensures ends { result ≡ false → IsLast bytes.now start i → end_of (drop start bytes.now) ≡ Some (suc (i - start)) };

    /// What is found is an item, and an item is found again whatever follows it.
    ghost reads: { ReadsItems end_of };

    /// In no bytes there is no number.
    ghost nothing: { None ≡ end_of [] };

    /// A byte below 128 is a number by itself.
    ghost single: { (b : ℕ) (tail : List ℕ) → b < 128 → end_of (b ∷ tail) ≡ Some 1 };

    /// An item is the spelling of what it spells.
    ghost respelled: { (item : List ℕ) → ((i : ℕ) → get_or item i 0 < 256) → IsItem end_of item → spelling (value_of item) ≡ item };
}

/// Numbers below 2^64, each in its shortest LEB128. Bytes join them as `JoinsUnsigned` says (specs/Typed.antt):
/// `end_of` is `unsigned_end`, `spelling` is `uleb`.
pub struct Unsigned;

impl Number for Unsigned {
    ghost use Rattle.am_leb.specs.Leb.{uleb, unsigned_value};
    ghost use Rattle.am_runs.specs.Items.{unsigned_end};
    ghost use Rattle.am_runs.specs.ItemLaws.{unsigned_reads, unsigned_nothing, unsigned_single, unsigned_again};

    type Value = u64;

    ghost end_of = { unsigned_end };

    ghost value_of = { unsigned_value };

    ghost spelling = { uleb };

    ghost reads = { unsigned_reads };

    ghost nothing = { unsigned_nothing };

    ghost single = { unsigned_single };

    ghost respelled = { unsigned_again };

    #[inline(always)]
    fn first(bytes: &[u8]) -> Option<(u64, usize)> {
        match read_u(bytes) {
            Err(_) => None,
            Ok((n, len)) => Some((n, len)),
        }
    }

    #[inline(always)]
    fn low(bytes: &[u8]) -> u64 {
        u64::from(bytes[0])
    }

    #[inline(always)]
    fn is_spare(bytes: &[u8], start: usize, i: usize) -> bool {
        bytes[i] == 0 && start < i
    }
}

/// Numbers from -2^63 up to 2^63 - 1, each in its shortest signed LEB128. Bytes join them as `JoinsSigned` says
/// (specs/Typed.antt): `end_of` is `signed_end`, `spelling` is `leb`.
pub struct Signed;

impl Number for Signed {
    ghost use Rattle.am_leb.specs.Leb.{leb, signed_value};
    ghost use Rattle.am_runs.specs.Items.{signed_end};
    ghost use Rattle.am_runs.specs.ItemLaws.{signed_reads, signed_nothing, signed_single, signed_again};

    type Value = i64;

    ghost end_of = { signed_end };

    ghost value_of = { signed_value };

    ghost spelling = { leb };

    ghost reads = { signed_reads };

    ghost nothing = { signed_nothing };

    ghost single = { signed_single };

    ghost respelled = { signed_again };

    #[inline(always)]
    fn first(bytes: &[u8]) -> Option<(i64, usize)> {
        match read_i(bytes) {
            Err(_) => None,
            Ok((n, len)) => Some((n, len)),
        }
    }

    #[inline(always)]
    fn low(bytes: &[u8]) -> i64 {
        low_number(bytes[0])
    }

    // Bit 6 of the last byte is the sign, so a last byte of 0 or 127 is one too many where bit 6 of the byte before it tells the sign already.
    #[inline(always)]
    fn is_spare(bytes: &[u8], start: usize, i: usize) -> bool {
        let byte = bytes[i];
        if byte == 0 {
            return start < i && bytes[i - 1] < 192;
        }
        if byte == 127 {
            return start < i && bytes[i - 1] >= 192;
        }
        false
    }
}
