//! The contents of the document of a closed set.
ghost use Rattle.std.specs.Prelude.{◌≡◌, ◌++◌, [], List, IfOk, OnOk, OnErr, map};
ghost use Rattle.am_types.specs.Documents.{table};
ghost use Rattle.am_types.specs.Members.{Member};
ghost use Rattle.am_doc.specs.Contents.{body};
ghost use Rattle.am_store.specs.Contents.{AreContents, ForContents, IsLarger, MayBecome};

use am_doc::{DocRef, canonical_contents_spell, one_table};
use am_graph::Graph;
use am_merge::merge;
use am_types::{Bytes, Change};
use std::alloc::{AllocError, Global};

/// The contents of the document of no changes: no actors, no heads, and twice no columns.
pub fn empty_contents(alloc: Global) -> Result<Bytes, AllocError>
    ensures { IfOk result (λ bytes. bytes ≡ body (table [])) }
{
    let mut contents = Bytes::new(alloc);
    contents.push_slice(&[0, 0, 0, 0])?;
    Ok(contents)
}

/// The document with these contents.
pub fn doc_of<'a>(contents: &'a [u8]) -> DocRef<'a>
    requires { AreContents contents.now }
    ensures { ForContents contents.now (λ C. result ≡ table C) }
{
    canonical_contents_spell();
    one_table();
    DocRef::spelled(contents)
}

/// Makes of the contents those of the larger set that the lent changes have joined. The graph is that of the larger set, in
/// which these come last.
pub fn enlarge(
    alloc: Global,
    contents: &mut Bytes,
    joined: &[&Change],
    graph: &Graph,
) -> Result<(), AllocError>
    requires { MayBecome contents.old (map (λ c. c.now) joined.now) graph.now }
    ensures ok { OnOk result ((C E : List Member) → IsLarger contents.old (map (λ c. c.now) joined.now) graph.now C E → contents.new ≡ body (table (C ++ E))) }
    ensures err { OnErr result (contents.new ≡ contents.old) }
{
    if joined.is_empty() {
        return Ok(());
    }
    let larger = larger_of(alloc, contents.as_slice(), joined, graph)?;
    *contents = larger;
    Ok(())
}

/// The contents of the larger set.
pub fn larger_of(
    alloc: Global,
    contents: &[u8],
    joined: &[&Change],
    graph: &Graph,
) -> Result<Bytes, AllocError>
    requires { MayBecome contents.now (map (λ c. c.now) joined.now) graph.now }
    ensures { IfOk result (λ larger. (C E : List Member) → IsLarger contents.now (map (λ c. c.now) joined.now) graph.now C E → larger ≡ body (table (C ++ E))) }
{
    let doc = doc_of(contents);
    merge(alloc, &doc, joined, graph)
}
