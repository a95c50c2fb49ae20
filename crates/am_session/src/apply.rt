//! Delivering the changes of a file.
ghost use Rattle.std.specs.Prelude.{◌≡◌, ◌++◌, Some, flat_map, string_bytes, IfOk, OnOk};
ghost use Rattle.am_session.specs.Apply.{limit_word, why_text, rejected_line, report_text, load_word, bad_file, Applies};

use crate::replies::hash_text;
use crate::session::Session;
use am_store::{LoadFault, ReadFault, Report};
use am_types::{Bytes, Limit, Rejected, Why};
use std::alloc::{AllocError, Global};

fn limit_word(limit: Limit) -> &'static str
    ensures { result.now ≡ limit_word limit }
{
    match limit {
        Limit::Changes => "changes",
        Limit::Operations => "operations",
        Limit::Preds => "preds",
        Limit::Links => "links",
    }
}

// Why a change was rejected.
fn why_text(alloc: Global, why: &Why) -> Result<String, AllocError>
    ensures { IfOk result (λ text. string_bytes text ≡ why_text why.now) }
{
    match why {
        Why::HashClash => String::from_str(alloc, "hash-clash"),
        Why::SeqClash(held) => {
            let hash = hash_text(alloc, held)?;
            format!(in alloc; "seq-clash {hash}")
        }
        Why::SeqGap => String::from_str(alloc, "seq-gap"),
        Why::StartLow(dep) => {
            let hash = hash_text(alloc, dep)?;
            format!(in alloc; "start-low {hash}")
        }
        Why::BadReference(place) => format!(in alloc; "bad-reference {place}"),
        Why::Full(limit) => {
            let word = limit_word(*limit);
            format!(in alloc; "full {word}")
        }
    }
}

// Appends the line of a rejected change.
fn push_rejected(alloc: Global, lines: &mut String, one: &Rejected) -> Result<(), AllocError>
    ensures { OnOk result (string_bytes lines.new ≡ string_bytes lines.old ++ rejected_line one.now) }
{
    let hash = hash_text(alloc, &one.hash)?;
    let why = why_text(alloc, &one.why)?;
    write!(lines, "rejected {hash} {why}\n")
}

// The lines of the rejected changes.
fn rejected_lines(alloc: Global, rejected: &[Rejected]) -> Result<String, AllocError>
    ensures { IfOk result (λ lines. string_bytes lines ≡ flat_map rejected_line rejected.now) }
{
    let mut lines = String::new(alloc);
    for one in rejected {
        push_rejected(alloc, &mut lines, one)?;
    }
    Ok(lines)
}

// What is told of a delivery.
fn report_text(alloc: Global, report: &Report) -> Result<Bytes, AllocError>
    ensures { IfOk result (λ reply. reply ≡ report_text report.now.added report.now.waiting report.now.rejected) }
{
    let lines = rejected_lines(alloc, report.rejected.as_slice())?;
    let added = report.added;
    let waiting = report.waiting;
    let count = report.rejected.len();
    Ok(Bytes::from(format!(in alloc;
        "ok added {added} waiting {waiting} rejected {count}\n{lines}"
    )?.into_bytes()))
}

// What is wrong with a chunk.
fn load_word(alloc: Global, fault: LoadFault) -> Result<String, AllocError>
    ensures { IfOk result (λ text. string_bytes text ≡ load_word fault) }
{
    match fault {
        LoadFault::BadMagic => String::from_str(alloc, "bad-magic"),
        LoadFault::Truncated => String::from_str(alloc, "truncated"),
        LoadFault::BadLength => String::from_str(alloc, "bad-length"),
        LoadFault::BadChecksum => String::from_str(alloc, "bad-checksum"),
        LoadFault::ChunkType(kind) => format!(in alloc; "chunk-type {kind}"),
        LoadFault::CompressedChunk => String::from_str(alloc, "compressed-chunk"),
        LoadFault::DocumentHere => String::from_str(alloc, "document-here"),
        LoadFault::CompressedColumn => String::from_str(alloc, "compressed-column"),
        LoadFault::BadChange => String::from_str(alloc, "bad-change"),
        LoadFault::BadDocument => String::from_str(alloc, "bad-document"),
        LoadFault::NoHistory => String::from_str(alloc, "no-history"),
        LoadFault::HeadsMismatch(hash) => {
            let hash = hash_text(alloc, &hash)?;
            format!(in alloc; "heads-mismatch {hash}")
        }
    }
}

// The reply where a chunk of a file is bad.
fn bad_file(alloc: Global, fault: LoadFault, number: u64) -> Result<Bytes, AllocError>
    ensures { IfOk result (λ reply. reply ≡ bad_file fault number) }
{
    let word = load_word(alloc, fault)?;
    Ok(Bytes::from(format!(in alloc; "refused {word} chunk {number}\n")?.into_bytes()))
}

/// Delivers the changes of a file, or tells the first of its chunks that is bad. `only_changes` says whether documents
/// are refused even where they can be read.
#[tactic(auto, using(crate::proofs::Delivering::applied_whole, crate::proofs::Delivering::applied_bad))]
pub fn apply(
    alloc: Global,
    session: &mut Session,
    bytes: &[u8],
    only_changes: bool,
) -> Result<Bytes, AllocError>
    ensures { IfOk result (λ reply. Applies only_changes (Some bytes.now) session.old reply session.new) }
{
    match session.read_file(alloc, bytes, only_changes) {
        Ok(report) => report_text(alloc, &report),
        Err(ReadFault::Load(error)) => bad_file(alloc, error.fault, error.chunk),
        Err(ReadFault::NoMemory) => Err(AllocError),
    }
}
