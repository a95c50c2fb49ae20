//! Finishing writers where they stand: what they held goes to bytes that are there, so nothing is let go on a way out
//! between two columns.
ghost use Rattle.std.specs.Prelude.{◌≤◌, ◌≡◌, ◌^◌, [], Some, length, map, option_map, IfSome, IfNone, IsErr, OnOk, OnErr};
ghost use Rattle.am_runs.specs.Canonical.{canonical_bytes};
ghost use Rattle.am_delta.specs.Deltas.{CanonDeltas};
ghost use Rattle.am_flags.specs.Flags.{CanonFlags, CanonMaybe};
ghost use Rattle.am_values.specs.Columns.{CanonValues};

use crate::item_writer::{ItemWriter, Written};
use am_delta::DeltaWriter;
use am_flags::FlagWriter;
use am_types::Bytes;
use am_values::ValueWriter;
use std::alloc::{AllocError, Global};
use std::mem::replace;

/// The column of items, as `finish` gives it. An error says that memory was wanted, now or before: then the bytes stay.
/// The writer is left with nothing pushed.
pub fn finish_items<K: Written>(
    alloc: Global,
    writer: &mut ItemWriter<K>,
    to: &mut Bytes,
) -> Result<(), AllocError>
    requires { IfSome writer.old (λ items. length items ≤ 2 ^ 32) }
    ensures failed { IfNone writer.old (IsErr result) }
    ensures ok { OnOk result (IfSome writer.old (λ items. to.new ≡ canonical_bytes (map (option_map K.code) items))) }
    ensures emptied { writer.new ≡ Some [] }
    ensures kept { OnErr result (to.new ≡ to.old) }
{
    let full = replace(writer, ItemWriter::new(alloc));
    *to = full.finish()?;
    Ok(())
}

/// The column of signed numbers, as `finish` gives it. An error says that memory was wanted, now or before: then the bytes
/// stay. The writer is left with nothing pushed.
pub fn finish_deltas(
    alloc: Global,
    writer: &mut DeltaWriter,
    to: &mut Bytes,
) -> Result<(), AllocError>
    ensures failed { IfNone writer.old (IsErr result) }
    ensures ok { OnOk result (IfSome writer.old (CanonDeltas to.new)) }
    ensures emptied { writer.new ≡ Some [] }
    ensures kept { OnErr result (to.new ≡ to.old) }
{
    let full = replace(writer, DeltaWriter::new(alloc));
    *to = full.finish()?;
    Ok(())
}

/// The column of flags, as `finish_plain` gives it. An error says that memory was wanted, now or before: then the bytes stay.
/// The writer is left with nothing pushed.
pub fn finish_plain(
    alloc: Global,
    writer: &mut FlagWriter,
    to: &mut Bytes,
) -> Result<(), AllocError>
    ensures failed { IfNone writer.old (IsErr result) }
    ensures ok { OnOk result (IfSome writer.old (CanonFlags to.new)) }
    ensures emptied { writer.new ≡ Some [] }
    ensures kept { OnErr result (to.new ≡ to.old) }
{
    let full = replace(writer, FlagWriter::new(alloc));
    *to = full.finish_plain()?;
    Ok(())
}

/// The column of flags, as `finish_maybe` gives it. An error says that memory was wanted, now or before: then the bytes stay.
/// The writer is left with nothing pushed.
pub fn finish_maybe(
    alloc: Global,
    writer: &mut FlagWriter,
    to: &mut Bytes,
) -> Result<(), AllocError>
    ensures failed { IfNone writer.old (IsErr result) }
    ensures ok { OnOk result (IfSome writer.old (CanonMaybe to.new)) }
    ensures emptied { writer.new ≡ Some [] }
    ensures kept { OnErr result (to.new ≡ to.old) }
{
    let full = replace(writer, FlagWriter::new(alloc));
    *to = full.finish_maybe()?;
    Ok(())
}

/// The two columns of values, as `finish` gives them. An error says that memory was wanted, now or before: then the bytes
/// stay. The writer is left with nothing pushed.
pub fn finish_values(
    alloc: Global,
    writer: &mut ValueWriter,
    numbers: &mut Bytes,
    raw: &mut Bytes,
) -> Result<(), AllocError>
    ensures failed { IfNone writer.old (IsErr result) }
    ensures ok { OnOk result (IfSome writer.old (CanonValues numbers.new raw.new)) }
    ensures emptied { writer.new ≡ Some [] }
    ensures kept { OnErr result ((numbers.new ≡ numbers.old) × (raw.new ≡ raw.old)) }
{
    let full = replace(writer, ValueWriter::new(alloc));
    let columns = full.finish()?;
    *numbers = columns.0;
    *raw = columns.1;
    Ok(())
}
