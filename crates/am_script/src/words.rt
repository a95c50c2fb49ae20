//! The words of a line or of the command line, and what a word can spell.
ghost use Rattle.std.specs.Prelude.{◌≡◌, ◌↔◌, ◌≤◌, ◌^◌, ◌&&◌, true, bytes_eq, MatchOption, length, map, nat_lt, IfOk, IsSome, IsUtf8, Ok, Err};
ghost use Rattle.std.specs.List.{list_all, AllPass};
ghost use Rattle.std.specs.Char.{is_ascii_digit};
ghost use Rattle.std.specs.Str.Parse.{digits_value};
ghost use Rattle.hex.specs.Hex.{is_hex_digit};
ghost use Rattle.am_script.specs.Words.{space, is_word, alone, name_of, one_name, two_names, is_number, number_of, one_number, hash_of, all_hashes, hash_and_name, name_and_hashes};

use crate::fault::LineFault;
use am_types::{Hash, List, Text};
use hex::FromHex;
use std::alloc::{AllocError, Global};

// The longest name of a file, in bytes.
const LONGEST_NAME: usize = 1024;

/// The greatest number that a word names.
pub const GREATEST_NUMBER: u64 = 100_000;

// Whether all bytes print, and none is a space.
fn all_print(bytes: &[u8]) -> bool
    ensures { result ≡ list_all (λ byte. nat_lt space byte && nat_lt byte 127) bytes.now }
{
    bytes.iter().all(|byte| b' ' < *byte && *byte < 127)
}

// Whether one or more bytes print, and none is a space.
fn is_word(part: &[u8]) -> bool
    ensures { result ≡ is_word part.now }
{
    if part.is_empty() {
        return false;
    }
    all_print(part)
}

/// Whether all are words.
pub fn are_words(all: &[&[u8]]) -> bool
    ensures { result ≡ list_all is_word (map (λ word. word.now) all.now) }
{
    for part in all {
        if !is_word(part) {
            return false;
        }
    }
    true
}

/// Whether a word is this one.
pub fn is_same(word: &[u8], other: &str) -> bool
    ensures { result ≡ bytes_eq word.now other.now }
{
    word == other.as_bytes()
}

/// What was read, where nothing stands behind its word.
pub fn alone<T: Drop>(read: T, words: &[&[u8]]) -> Result<T, LineFault>
    ensures { result ≡ alone read (map (λ word. word.now) words.now) }
{
    if words.is_empty() {
        Ok(read)
    } else {
        Err(LineFault::Syntax)
    }
}

// The text of a word.
fn text_of(alloc: Global, word: &[u8]) -> Result<Text, AllocError>
    requires { IsUtf8 word.now }
    ensures { IfOk result (λ text. text ≡ word.now) }
{
    let word = std::str::from_utf8(word).unwrap();
    Text::copy_of(alloc, word)
}

// The word, where it may be the name of a file.
#[tactic(auto, using(crate::proofs::Texts::word_is_text))]
fn name_of(alloc: Global, word: &[u8]) -> Result<Result<Text, LineFault>, AllocError>
    requires { is_word word.now ≡ true }
    ensures { IfOk result (λ name. name ≡ name_of word.now) }
{
    if word.len() > LONGEST_NAME {
        return Ok(Err(LineFault::Syntax));
    }
    Ok(Ok(text_of(alloc, word)?))
}

/// The one word that stands there, where it may be the name of a file.
#[tactic(auto, using(crate::proofs::Texts::first_is_word))]
pub fn one_name(alloc: Global, words: &[&[u8]]) -> Result<Result<Text, LineFault>, AllocError>
    requires { list_all is_word (map (λ word. word.now) words.now) ≡ true }
    ensures { IfOk result (λ name. name ≡ one_name (map (λ word. word.now) words.now)) }
{
    match words {
        [name] => name_of(alloc, name),
        _ => Ok(Err(LineFault::Syntax)),
    }
}

// Whether all bytes are digits.
fn are_digits(word: &[u8]) -> bool
    ensures { result ≡ list_all is_ascii_digit word.now }
{
    word.iter().all(|byte| byte.is_ascii_digit())
}

// Whether a word is 0, or digits without a leading zero.
fn is_number(word: &[u8]) -> bool
    ensures { result ≡ is_number word.now }
{
    if !are_digits(word) {
        return false;
    }
    word.len() == 1 || (!word.is_empty() && word[0] != b'0')
}

// The number that digits write.
fn value_of(word: &str) -> Option<u64>
    requires digits { list_all is_ascii_digit word.now ≡ true }
    requires some { 1 ≤ length word.now }
    ensures { MatchOption result (2 ^ 64 ≤ digits_value 10 word.now) (λ value. value ≡ digits_value 10 word.now) }
{
    word.parse::<u64>().ok()
}

// The number that a word names.
#[tactic(auto, using(crate::proofs::Texts::word_is_text, crate::proofs::Numbers::number_is_digits, crate::proofs::Numbers::number_is_some, crate::proofs::Numbers::too_great))]
fn number_of(word: &[u8]) -> Result<u64, LineFault>
    requires { is_word word.now ≡ true }
    ensures { result ≡ number_of word.now }
{
    if !is_number(word) {
        return Err(LineFault::Syntax);
    }
    match value_of(std::str::from_utf8(word).unwrap()) {
        Some(number) if number <= GREATEST_NUMBER => Ok(number),
        _ => Err(LineFault::Syntax),
    }
}

/// The number that the one word that stands there writes, at most 100,000.
pub fn one_number(words: &[&[u8]]) -> Result<u64, LineFault>
    requires { list_all is_word (map (λ word. word.now) words.now) ≡ true }
    ensures { result ≡ one_number (map (λ word. word.now) words.now) }
{
    match words {
        [word] => number_of(word),
        _ => Err(LineFault::Syntax),
    }
}

// The hash that a word spells: 64 hexadecimal digits of either case.
fn hash_of(word: &[u8]) -> Option<Hash>
    ensures value { result ≡ hash_of word.now }
    ensures found { IsSome result ↔ ((length word.now ≡ 64) × AllPass is_hex_digit word.now) }
{
    match <[u8; 32] as FromHex>::from_hex(word) {
        Ok(bytes) => Some(Hash(bytes)),
        Err(_) => None,
    }
}

/// The hashes that the words spell.
pub fn all_hashes(
    alloc: Global,
    words: &[&[u8]],
) -> Result<Result<List<Hash>, LineFault>, AllocError>
    ensures { IfOk result (λ hashes. hashes ≡ all_hashes (map (λ word. word.now) words.now)) }
{
    let mut hashes = List::new(alloc);
    for word in words {
        let Some(hash) = hash_of(word) else {
            return Ok(Err(LineFault::BadHash));
        };
        hashes.push(hash)?;
    }
    Ok(Ok(hashes))
}

/// A hash and a name, where the words are these. A name that is too long is told before a word that is no hash.
#[tactic(auto, using(crate::proofs::Texts::first_is_word))]
pub fn hash_and_name(
    alloc: Global,
    words: &[&[u8]],
) -> Result<Result<(Hash, Text), LineFault>, AllocError>
    requires { list_all is_word (map (λ word. word.now) words.now) ≡ true }
    ensures { IfOk result (λ both. both ≡ hash_and_name (map (λ word. word.now) words.now)) }
{
    let Some((word, more)) = words.split_first() else {
        return Ok(Err(LineFault::Syntax));
    };
    match one_name(alloc, more)? {
        Ok(name) => match hash_of(word) {
            Some(hash) => Ok(Ok((hash, name))),
            None => Ok(Err(LineFault::BadHash)),
        },
        Err(fault) => Ok(Err(fault)),
    }
}

/// Two names, where the words are these.
#[tactic(auto, using(crate::proofs::Texts::first_is_word))]
pub fn two_names(
    alloc: Global,
    words: &[&[u8]],
) -> Result<Result<(Text, Text), LineFault>, AllocError>
    requires { list_all is_word (map (λ word. word.now) words.now) ≡ true }
    ensures { IfOk result (λ both. both ≡ two_names (map (λ word. word.now) words.now)) }
{
    let Some((first, more)) = words.split_first() else {
        return Ok(Err(LineFault::Syntax));
    };
    match name_of(alloc, first)? {
        Ok(first) => match one_name(alloc, more)? {
            Ok(second) => Ok(Ok((first, second))),
            Err(fault) => Ok(Err(fault)),
        },
        Err(fault) => Ok(Err(fault)),
    }
}

/// A name and hashes, where the words are these.
#[tactic(auto, using(crate::proofs::Texts::first_is_word))]
pub fn name_and_hashes(
    alloc: Global,
    words: &[&[u8]],
) -> Result<Result<(Text, List<Hash>), LineFault>, AllocError>
    requires { list_all is_word (map (λ word. word.now) words.now) ≡ true }
    ensures { IfOk result (λ both. both ≡ name_and_hashes (map (λ word. word.now) words.now)) }
{
    let Some((name, more)) = words.split_first() else {
        return Ok(Err(LineFault::Syntax));
    };
    match name_of(alloc, name)? {
        Ok(name) => match all_hashes(alloc, more)? {
            Ok(hashes) => Ok(Ok((name, hashes))),
            Err(fault) => Ok(Err(fault)),
        },
        Err(fault) => Ok(Err(fault)),
    }
}
