//! Measuring a document of generated changes.
ghost use Rattle.std.specs.Prelude.{◌≡◌, ◌≤◌, length, IfOk, OnOk, IsPermutation};
ghost use Rattle.am_store.specs.Kept.{nothing};
ghost use Rattle.am_store.specs.Saved.{document};
ghost use Rattle.am_gen.specs.Made.{made};
ghost use Rattle.am_session.specs.Apply.{outcome};
ghost use Rattle.am_session.specs.Bench.{generated, measures_line, measures, measured_as_shown, bench_text};

use crate::reading::read_at_heads;
use crate::replies::{push_number, refusal, refuses};
use am_gen::made;
use am_json::Form;
use am_laws::listing_is_free;
use am_script::GREATEST_NUMBER;
use am_store::{ReadFault, Store, documents_are_read_back};
use am_types::Bytes;
use std::alloc::{AllocError, Global};

// Delivers so many generated changes to a store, which lists them in some order.
fn generate(alloc: Global, store: &mut Store, count: u64) -> Result<(), AllocError>
    requires { count ≤ 100000 }
    ensures { OnOk result (IsPermutation (outcome store.old (made count)).closed store.new.closed) }
{
    let changes = made(alloc, count)?;
    store.deliver(alloc, changes)?;
    Ok(())
}

// The line that tells these numbers.
fn measures_line(
    alloc: Global,
    changes: u64,
    operations: u64,
    bytes: u64,
    json: u64,
) -> Result<Bytes, AllocError>
    ensures { IfOk result (λ line. line ≡ measures_line changes operations bytes json) }
{
    let mut line = Bytes::new(alloc);
    push_number(alloc, &mut line, "ok changes ", changes)?;
    push_number(alloc, &mut line, " operations ", operations)?;
    push_number(alloc, &mut line, " bytes ", bytes)?;
    push_number(alloc, &mut line, " json ", json)?;
    line.push_slice(b"\n")?;
    Ok(line)
}

// How much a store holds, the length of its document, and that of the text that show prints, which is `shown`.
fn measures(alloc: Global, store: &Store, file: &[u8], shown: &[u8]) -> Result<Bytes, AllocError>
    requires { file.now ≡ document store.now.closed }
    ensures { IfOk result (λ reply. reply ≡ measures store.now.closed shown.now) }
{
    let counts = store.counts();
    let bytes = file.len() as u64;
    let json = shown.len().saturating_sub(1) as u64;
    measures_line(alloc, counts.changes, counts.operations, bytes, json)
}

// The same, with what show prints. A text that show refuses is refused.
fn measured(alloc: Global, store: &Store, file: &[u8]) -> Result<Bytes, AllocError>
    requires { file.now ≡ document store.now.closed }
    ensures { IfOk result (λ reply. reply ≡ measured_as_shown store.now.closed) }
{
    let shown = read_at_heads(alloc, Form::Winners, store)?;
    if refuses(shown.as_slice()) {
        return Ok(shown);
    }
    measures(alloc, store, file, shown.as_slice())
}

// Loads the file of a store's document into another one that has none. It has the same changes then.
fn load(alloc: Global, store: &Store, file: &[u8], second: &mut Store) -> Result<(), AllocError>
    requires file { file.now ≡ document store.now.closed }
    requires none { second.old ≡ nothing }
    ensures { OnOk result (IsPermutation store.now.closed second.new.closed) }
{
    documents_are_read_back();
    let _graph = store.graph();
    let _length = file.len();
    let _report = match second.read_file(alloc, file, false) {
        Ok(report) => report,
        Err(ReadFault::NoMemory) => return Err(AllocError),
        Err(ReadFault::Load(_)) => unreachable!(),
    };
    Ok(())
}

// The measures of another store that has none, once the file of this one's document was loaded into it.
fn measured_loaded(
    alloc: Global,
    store: &Store,
    file: &[u8],
    second: &mut Store,
) -> Result<Bytes, AllocError>
    requires file { file.now ≡ document store.now.closed }
    requires none { second.old ≡ nothing }
    ensures { IfOk result (λ reply. reply ≡ measured_as_shown store.now.closed) }
{
    listing_is_free();
    let _graph = store.graph();
    load(alloc, store, file, second)?;
    measured(alloc, second, file)
}

// The measures of a store that the document of this one was loaded into.
fn measured_again(alloc: Global, store: &Store) -> Result<Bytes, AllocError>
    ensures { IfOk result (λ reply. reply ≡ measured_as_shown store.now.closed) }
{
    let file = store.save(alloc)?;
    let mut second = Store::new(alloc)?;
    measured_loaded(alloc, store, file.as_slice(), &mut second)
}

// The same of generated changes, which are delivered to a store that has none.
fn measured_generated(alloc: Global, store: &mut Store, count: u64) -> Result<Bytes, AllocError>
    requires few { count ≤ 100000 }
    requires none { store.old ≡ nothing }
    ensures { IfOk result (λ reply. reply ≡ measured_as_shown (generated count)) }
{
    listing_is_free();
    generate(alloc, store, count)?;
    let _graph = store.graph();
    measured_again(alloc, store)
}

// The same in a store of its own. Each store is lent to what can fail, so that it is let go on one way alone.
fn measured_changes(alloc: Global, count: u64) -> Result<Bytes, AllocError>
    requires { count ≤ 100000 }
    ensures { IfOk result (λ reply. reply ≡ measured_as_shown (generated count)) }
{
    let mut store = Store::new(alloc)?;
    measured_generated(alloc, &mut store, count)
}

/// The reply to bench: so many generated changes are delivered to a store, its document is loaded into another one, and that
/// is measured. No line asks for more than 100,000.
pub fn bench(alloc: Global, count: u64) -> Result<Bytes, AllocError>
    ensures { IfOk result (λ reply. reply ≡ bench_text count) }
{
    if count > GREATEST_NUMBER {
        return refusal(alloc, "syntax");
    }
    let reply = measured_changes(alloc, count)?;
    Ok(reply)
}
