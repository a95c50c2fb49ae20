//! What no clause says: that the calls succeed, and that the real versions pass on what they are given.
use am_outside::{
    Failed, FetchFault, Folder, HostFolder, MemoryFolder, MemorySink, MemorySource, ReadSource,
    Sink, Source, SureFolder, SureSink, SureSource, WriteFault, WriteSink,
};
use std::alloc::Global;
use std::collections::VecDeque;
use std::process::Abort;
use std::test::Fail;
use std::time::SystemTime;
use std::{env, fs};

#[test]
fn memory_source_gives_pieces(rt: HostRuntime) -> Result<(), Fail> {
    let alloc = rt.alloc();
    let mut source = MemorySource::new(b"hello".to_vec(alloc)?, 3, vec![in alloc; 1]?);
    let mut buffer = [0u8; 8];
    assert!(rt; source.read(&mut buffer) == Ok(3));
    assert!(rt; source.read(&mut buffer) == Err(Failed));
    assert!(rt; source.read(&mut buffer) == Ok(2));
    assert!(rt; buffer[0] == b'l');
    assert!(rt; source.read(&mut buffer) == Ok(0));
    Ok(())
}

#[test]
fn memory_sink_takes_pieces(rt: HostRuntime) -> Result<(), Fail> {
    let alloc = rt.alloc();
    let mut sink = MemorySink::new(alloc, vec![in alloc; 1]?);
    assert!(rt; sink.write(b"one") == Ok(3));
    assert!(rt; sink.write(b"two") == Err(WriteFault::Failed));
    assert!(rt; sink.bytes() == b"one".as_slice());
    Ok(())
}

// Keeps a file under this name over another one, and fetches it.
fn keeps_one<F: Folder>(
    rt: &impl Abort,
    alloc: Global,
    folder: &mut F,
    name: &str,
) -> Result<(), FetchFault> {
    assert!(rt; folder.keep(name, b"two") == Ok(()));
    let bytes = folder.fetch(alloc, name)?;
    assert!(rt; bytes.as_slice() == b"two".as_slice());
    Ok(())
}

fn lacks<F: Folder>(rt: &impl Abort, alloc: Global, folder: &mut F, name: &str) {
    assert!(rt; matches!(folder.fetch(alloc, name), Err(FetchFault::Absent)));
}

// The fourth call fails.
fn memory_keeps(rt: &impl Abort, alloc: Global, folder: &mut MemoryFolder) -> Result<(), Fail> {
    folder.put_file("a", b"one")?;
    keeps_one(rt, alloc, folder, "a")?;
    assert!(rt; folder.file("a") == Some(b"two".as_slice()));
    lacks(rt, alloc, folder, "b");
    assert!(rt; folder.keep("a", b"three") == Err(WriteFault::Failed));
    assert!(rt; folder.file("a") == None);
    Ok(())
}

#[test]
fn memory_folder_keeps_files(rt: HostRuntime) -> Result<(), Fail> {
    let failing = vec![in rt.alloc(); 3]?;
    let mut folder = MemoryFolder::new(rt.alloc(), failing);
    memory_keeps(&rt, rt.alloc(), &mut folder)
}

// The next reads, of four bytes at most, give these pieces.
fn gives<S: Source>(rt: &impl Abort, source: &mut S, pieces: &[&[u8]]) {
    let mut buffer = [0u8; 4];
    for &piece in pieces {
        assert!(rt; source.read(&mut buffer) == Ok(piece.len()), "of {piece:?}");
        assert!(rt; buffer.starts_with(piece), "of {piece:?}");
    }
}

#[test]
fn sure_source_does_not_fail(rt: HostRuntime) -> Result<(), Fail> {
    let mut source = SureSource::new(b"hello".to_vec(rt.alloc())?);
    gives(&rt, &mut source, &[b"hell", b"o", b""]);
    Ok(())
}

#[test]
fn sure_sink_does_not_fail(rt: HostRuntime) {
    let mut sink = SureSink::new(rt.alloc());
    assert!(rt; sink.write(b"one") == Ok(3));
    assert!(rt; sink.write(b"two") == Ok(3));
    assert!(rt; sink.bytes() == b"onetwo".as_slice());
}

fn sure_keeps(rt: &impl Abort, alloc: Global, folder: &mut SureFolder) -> Result<(), Fail> {
    folder.put_file("a", b"one")?;
    keeps_one(rt, alloc, folder, "a")?;
    assert!(rt; folder.file("a") == Some(b"two".as_slice()));
    lacks(rt, alloc, folder, "b");
    Ok(())
}

#[test]
fn sure_folder_does_not_fail(rt: HostRuntime) -> Result<(), Fail> {
    let mut folder = SureFolder::new(rt.alloc());
    sure_keeps(&rt, rt.alloc(), &mut folder)
}

#[test]
fn read_source_passes_bytes_on(rt: HostRuntime) {
    let mut reader = b"hello".as_slice();
    gives(
        &rt,
        &mut ReadSource::new(&mut reader),
        &[b"hell", b"o", b""],
    );
}

#[test]
fn write_sink_passes_bytes_on(rt: HostRuntime) {
    let mut written = VecDeque::new(rt.alloc());
    let mut sink = WriteSink::new(&mut written);
    assert!(rt; sink.write(b"hello") == Ok(5));
    assert!(rt; written.len() == 5);
    assert!(rt; written.pop_front() == Some(b'h'));
}

#[test]
fn host_folder_keeps_files(rt: HostRuntime) -> Result<(), Fail> {
    let alloc = rt.alloc();
    // A name that no test run beside this one has.
    let now = SystemTime::now(&rt)?
        .duration_since(SystemTime::UNIX_EPOCH)?
        .as_nanos();
    let name = format!(in alloc; "amstore-host-folder-{now}")?;
    let path = env::temp_dir(&rt)?.join(alloc, name.as_str())?;
    let mut folder = HostFolder::new(&rt);
    keeps_one(&rt, alloc, &mut folder, path.as_str())?;
    fs::remove_file(&rt, path.as_str())?;
    lacks(&rt, alloc, &mut folder, path.as_str());
    Ok(())
}
