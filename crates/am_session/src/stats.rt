//! The command that tells how much is held.
ghost use Rattle.std.specs.Prelude.{◌≡◌, IfOk};
ghost use Rattle.am_session.specs.Stats.{stats_line, stats_text};

use crate::replies::push_number;
use crate::session::Session;
use am_store::Counts;
use am_types::Bytes;
use std::alloc::{AllocError, Global};

// The line that tells these numbers.
fn stats_line(alloc: Global, counts: Counts, bytes: u64, hits: u64) -> Result<Bytes, AllocError>
    ensures { IfOk result (λ line. line ≡ stats_line counts bytes hits) }
{
    let mut line = Bytes::new(alloc);
    push_number(alloc, &mut line, "ok changes ", counts.changes)?;
    push_number(alloc, &mut line, " operations ", counts.operations)?;
    push_number(alloc, &mut line, " preds ", counts.preds)?;
    push_number(alloc, &mut line, " links ", counts.links)?;
    push_number(alloc, &mut line, " waiting ", counts.waiting)?;
    push_number(alloc, &mut line, " bytes ", bytes)?;
    push_number(alloc, &mut line, " hits ", hits)?;
    line.push_slice(b"\n")?;
    Ok(line)
}

/// How much the store holds, how long its document is, and how often a view was found.
pub fn tell_stats(alloc: Global, session: &mut Session) -> Result<Bytes, AllocError>
    ensures reply { IfOk result (λ reply. reply ≡ stats_text session.old.kept session.old.views.hits) }
    ensures same { session.new ≡ session.old }
{
    let bytes = session.contents_length(alloc)?;
    let counts = session.counts();
    stats_line(alloc, counts, bytes, session.hits())
}
