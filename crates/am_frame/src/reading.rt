//! Every file can be read.
ghost use Rattle.am_frame.specs.Faults.{IsRead};

use crate::frame::next_frame;

/// Bytes are a file of chunks, or have a first chunk that is bad. Nothing is answered; the contract is the law, and the
/// body tells which of the two it is.
pub fn some_reading(bytes: &[u8])
    ensures { IsRead bytes.now }
{
    let mut rest = bytes;
    'chunks: while !rest.is_empty() {
        let frame = match next_frame(rest) {
            Ok(frame) => frame,
            Err(_) => return,
        };
        rest = frame.rest;
    }
}
