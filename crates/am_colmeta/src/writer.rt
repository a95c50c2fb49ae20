//! Writing columns and their metadata.
ghost use Rattle.std.specs.Prelude.{◌≡◌, ◌<◌, ◌^◌, ◌++◌, ◌∷◌, [], Some, None, length, filter, count_by, IfOk, IfSome, IfNone, OnOk, OnErr, IsErr};
ghost use Rattle.am_colmeta.specs.Metadata.{metadata, listing, body, not_empty, Ascend, AreListed};
ghost use Rattle.am_colmeta.specs.Writing.{IsAbove, has_length, entry_bytes};

use am_leb::push_u;
use am_types::Bytes;
use std::alloc::{AllocError, Global};
use std::marker::Model;

// How many of the columns have bytes.
fn count_of(columns: &[(u64, u64)]) -> u64
    ensures { result ≡ count_by has_length columns.now }
{
    columns.iter().filter(|column| column.1 > 0).count() as u64
}

// Appends what the metadata have of one column.
fn push_entry(out: &mut Vec<u8>, column: (u64, u64)) -> Result<(), AllocError>
    ensures { OnOk result (out.new.items ≡ out.old.items ++ entry_bytes column) }
{
    if column.1 > 0 {
        push_u(out, column.0)?;
        push_u(out, column.1)?;
    }
    Ok(())
}

/// Appends the metadata of columns, of which these are the specifications and lengths. A column without bytes isn't listed.
/// An error says that memory was wanted; then some of it may be there.
pub fn push_metadata(out: &mut Vec<u8>, columns: &[(u64, u64)]) -> Result<(), AllocError>
    ensures written { OnOk result (out.new.items ≡ out.old.items ++ metadata (filter has_length columns.now)) }
    ensures few { OnOk result (length (filter has_length columns.now) < 2 ^ 64) }
{
    push_u(out, count_of(columns))?;
    for column in columns {
        push_entry(out, *column)?;
    }
    Ok(())
}

/// Writes columns, one after another, and their metadata. A contract sees the columns that were pushed, or None once
/// memory was wanted: it answers that from then on.
#[derive(Drop)]
pub struct ColumnWriter {
    columns: Vec<(u64, u64)>,
    body: Vec<u8>,
    failed: bool,
    alloc: Global,
}

impl Model for ColumnWriter {
    ghost use Rattle.std.specs.Prelude.{List, ℕ, Option};

    ghost Value = { Option (List (ℕ × List ℕ)) };

    ghost use Rattle.am_colmeta.specs.Writing.{columns_written, IsCollecting};

    ghost view = { λ writer. columns_written writer.failed writer.columns.items writer.body.items };

    ghost invariant = { λ writer. IsCollecting writer.failed writer.columns.items writer.body.items };
}

impl ColumnWriter {
    /// No columns. Nothing is allocated yet.
    pub fn new(alloc: Global) -> Self
        ensures { result ≡ Some [] }
    {
        ColumnWriter {
            columns: Vec::new(alloc),
            body: Vec::new(alloc),
            failed: false,
            alloc,
        }
    }

    /// Appends a column. Its specification is above those before; its bytes may be none.
    pub fn push(&mut self, spec: u64, bytes: &[u8]) -> Result<(), AllocError>
        requires { IfSome self.old (IsAbove spec) }
        ensures failed { IfNone self.old ((self.new ≡ None) × IsErr result) }
        ensures ok { OnOk result (IfSome self.old (λ columns. self.new ≡ Some (columns ++ (spec, bytes.now) ∷ []))) }
        ensures err { OnErr result (self.new ≡ None) }
    {
        if self.failed {
            return Err(AllocError);
        }
        self.failed = true;
        self.columns.push((spec, bytes.len() as u64))?;
        self.body.extend_from_slice(bytes)?;
        self.failed = false;
        Ok(())
    }

    /// The metadata and the body of the columns. A column without bytes isn't listed. `ColumnList::read` reads the
    /// metadata back.
    pub fn finish(self) -> Result<(Bytes, Bytes), AllocError>
        ensures failed { IfNone self (IsErr result) }
        ensures metadata { IfOk result (λ written. IfSome self (λ columns. written.0 ≡ metadata (listing (not_empty columns)))) }
        ensures body { IfOk result (λ written. IfSome self (λ columns. written.1 ≡ body (not_empty columns))) }
        ensures ascend { IfOk result (λ _. IfSome self (λ columns. Ascend (listing (not_empty columns)))) }
        ensures listed { IfOk result (λ _. IfSome self (λ columns. AreListed (listing (not_empty columns)))) }
    {
        if self.failed {
            return Err(AllocError);
        }
        let mut metadata = Vec::new(self.alloc);
        push_metadata(&mut metadata, &self.columns)?;
        Ok((Bytes::from(metadata), Bytes::from(self.body)))
    }
}
