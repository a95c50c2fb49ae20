//! The metadata and the bytes of columns that were finished one after another.
ghost use Rattle.std.specs.Prelude.{◌≡◌, IfOk};
ghost use Rattle.am_colmeta.specs.Metadata.{metadata, listing, body, not_empty, Ascend};

use am_colmeta::ColumnWriter;
use am_types::Bytes;
use std::alloc::{AllocError, Global};

/// The metadata and the bytes of these columns, each a specification and its bytes, ascending. Columns without bytes
/// aren't listed. An error says that memory was wanted.
pub fn columns_of(alloc: Global, columns: &[(u64, Bytes)]) -> Result<(Bytes, Bytes), AllocError>
    requires { Ascend (listing columns.now) }
    ensures metadata { IfOk result (λ text. text.0 ≡ metadata (listing (not_empty columns.now))) }
    ensures body { IfOk result (λ text. text.1 ≡ body (not_empty columns.now)) }
{
    let mut writer = ColumnWriter::new(alloc);
    for column in columns {
        writer.push(column.0, column.1.as_slice())?;
    }
    writer.finish()
}
