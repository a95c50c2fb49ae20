//! The texts of replies that several commands share.
ghost use Rattle.std.specs.Prelude.{◌≡◌, ◌++◌, string_bytes, IfOk, OnOk};
ghost use Rattle.am_session.specs.Replies.{refused, is_refused, numbered, hash_text, unknown, hash_line, hash_list, kept_reply};

use am_types::{Bytes, Hash};
use std::alloc::{AllocError, Global};

/// Whether a reply refuses its command.
pub fn refuses(reply: &[u8]) -> bool
    ensures { result ≡ is_refused reply.now }
{
    reply.starts_with(b"refused")
}

/// The reply that refuses a command.
pub fn refusal(alloc: Global, why: &str) -> Result<Bytes, AllocError>
    ensures { IfOk result (λ reply. reply ≡ refused why.now) }
{
    Ok(Bytes::from(format!(in alloc; "refused {why}\n")?.into_bytes()))
}

/// Appends a number behind some words.
pub fn push_number(
    alloc: Global,
    line: &mut Bytes,
    before: &str,
    number: u64,
) -> Result<(), AllocError>
    ensures { OnOk result (line.new ≡ line.old ++ numbered before.now number) }
{
    let text = format!(in alloc; "{before}{number}")?;
    line.push_slice(text.as_bytes())
}

/// A hash in hexadecimal, in lower case.
pub fn hash_text(alloc: Global, hash: &Hash) -> Result<String, AllocError>
    ensures { IfOk result (λ text. string_bytes text ≡ hash_text hash.now) }
{
    hex::encode(alloc, hash.0.as_slice())
}

/// The reply where no change with this hash is held.
pub fn unknown(alloc: Global, hash: &Hash) -> Result<Bytes, AllocError>
    ensures { IfOk result (λ reply. reply ≡ unknown hash.now) }
{
    let hash = hash_text(alloc, hash)?;
    Ok(Bytes::from(format!(in alloc; "refused unknown {hash}\n")?.into_bytes()))
}

// Appends the line of a hash.
fn push_hash(alloc: Global, lines: &mut String, hash: &Hash) -> Result<(), AllocError>
    ensures { OnOk result (string_bytes lines.new ≡ string_bytes lines.old ++ hash_line hash.now) }
{
    let hash = hash_text(alloc, hash)?;
    write!(lines, "{hash}\n")
}

/// How many hashes there are, and then each on a line.
pub fn hash_list(alloc: Global, hashes: &[Hash]) -> Result<Bytes, AllocError>
    ensures { IfOk result (λ reply. reply ≡ hash_list hashes.now) }
{
    let mut lines = String::new(alloc);
    for hash in hashes {
        push_hash(alloc, &mut lines, hash)?;
    }
    let count = hashes.len();
    Ok(Bytes::from(format!(in alloc; "ok {count}\n{lines}")?.into_bytes()))
}

/// The reply where a file of so many bytes is kept.
pub fn kept_reply(alloc: Global, count: usize) -> Result<Bytes, AllocError>
    ensures { IfOk result (λ reply. reply ≡ kept_reply count) }
{
    Ok(Bytes::from(format!(in alloc; "ok {count}\n")?.into_bytes()))
}
