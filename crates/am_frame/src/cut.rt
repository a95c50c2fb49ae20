//! A frame cut into its parts, whatever its checksum and its type.
ghost use Rattle.std.specs.Prelude.{◌≡◌, ◌<◌, ◌^◌, ◌++◌, length, IfOk, IsErrOf};
ghost use Rattle.am_frame.specs.Frames.{sized};
ghost use Rattle.am_frame.specs.Faults.{BeginsNoNumber};
ghost use Rattle.am_frame.specs.Heads.{IsShort, JudgesHead};

use am_leb::{LebFault, completed, one_spelling, read_u};
use am_types::same_bytes;

/// The four bytes with which each chunk begins.
pub const MAGIC: [u8; 4] = [0x85, 0x6f, 0x4a, 0x83];

// A frame whose checksum isn't compared yet.
#[derive(Drop)]
pub struct Cut<'a> {
    pub checksum: &'a [u8],
    pub kind: u8,
    // What the checksum is taken over: the type, the length and the contents, as they stand in the file.
    pub covered: &'a [u8],
    pub contents: &'a [u8],
    pub rest: &'a [u8],
}

// Why no frame could be cut off.
#[derive(Clone, Copy, Debug, PartialEq, Eq)]
pub enum HeadFault {
    BadMagic,
    Truncated,
    BadLength,
}

// Why no bytes stand behind their length.
#[derive(Clone, Copy, Debug, PartialEq, Eq)]
enum SizeFault {
    Short,
    Bad,
}

// The length that stands first, the bytes of that length behind it, and what follows them. The number is how many
// bytes the length and these bytes take together.
fn sized_at(bytes: &[u8]) -> Result<(usize, &[u8], &[u8]), SizeFault>
    ensures found { IfOk result (λ cut. (bytes.now ≡ sized cut.1.now ++ cut.2.now) × (cut.0 ≡ length (sized cut.1.now)) × (length cut.1.now < 2 ^ 64)) }
    ensures short { IsErrOf result SizeFault.Short → IsShort bytes.now }
    ensures bad { IsErrOf result SizeFault.Bad → BeginsNoNumber bytes.now }
{
    one_spelling();
    completed();
    let (count, size) = match read_u(bytes) {
        Ok(found) => found,
        Err(LebFault::Short) => return Err(SizeFault::Short),
        Err(LebFault::Long) => return Err(SizeFault::Bad),
        Err(LebFault::Large) => return Err(SizeFault::Bad),
    };
    let (_, body) = bytes.split_at(size);
    if count > body.len() as u64 {
        return Err(SizeFault::Short);
    }
    let (contents, rest) = body.split_at(count as usize);
    Ok((size + contents.len(), contents, rest))
}

// Cuts the first frame off.
#[tactic(auto, using(crate::proofs::HeadLaws::no_front, crate::proofs::HeadLaws::short_magic, crate::proofs::HeadLaws::no_magic, crate::proofs::HeadLaws::short_head, crate::proofs::HeadLaws::short_body, crate::proofs::HeadLaws::bad_length))]
pub fn cut_frame(bytes: &[u8]) -> Result<Cut<'_>, HeadFault>
    ensures { JudgesHead bytes.now result }
{
    if bytes.len() < 4 {
        let (front, _) = MAGIC.split_at(bytes.len());
        if !same_bytes(bytes, front) {
            return Err(HeadFault::BadMagic);
        }
        return Err(HeadFault::Truncated);
    }
    let (magic, head) = bytes.split_at(4);
    if !same_bytes(magic, &MAGIC) {
        return Err(HeadFault::BadMagic);
    }
    if head.len() < 5 {
        return Err(HeadFault::Truncated);
    }
    let (checksum, body) = head.split_at(4);
    let kind = body[0];
    let (_, behind) = body.split_at(1);
    let (size, contents, rest) = match sized_at(behind) {
        Ok(found) => found,
        Err(SizeFault::Short) => return Err(HeadFault::Truncated),
        Err(SizeFault::Bad) => return Err(HeadFault::BadLength),
    };
    let (covered, _) = body.split_at(1 + size);
    Ok(Cut {
        checksum,
        kind,
        covered,
        contents,
        rest,
    })
}
