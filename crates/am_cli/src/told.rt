//! What a person is told, on standard error, of a run that didn't write all its replies.
use crate::input::LONGEST;
use crate::run::Status;
use std::fmt;

impl Status {
    ghost use Rattle.std.specs.Prelude.{◌≡◌, ◌↔◌, true, None};
    ghost use Rattle.am_cli.specs.Top.{some_is_refused};

    /// Whether a person is told of it. Where all replies are written, they say all.
    pub fn is_told(self) -> bool
        ensures told { (result ≡ true) ↔ (some_is_refused self ≡ None) }
    {
        !matches!(self, Status::Done | Status::SomeRefused)
    }
}

impl fmt::Display for Status {
    fn fmt<W: fmt::Write>(&self, f: &mut fmt::Formatter<W>) -> fmt::Result {
        match self {
            Status::Done => f.write_str("all commands were carried out"),
            Status::SomeRefused => f.write_str(
                "all commands were carried out, and a reply refuses",
            ),
            Status::BadWords => f.write_str(
                "the words must be one of: run < SCRIPT | show FILE [HASH ..] | check FILE | normalize IN OUT | history FILE, \
                 where a HASH is 64 hexadecimal digits and no name has a space. \
                 The manual page is amstore(1), in a clone docs/amstore.1",
            ),
            Status::InputFault => f.write_str("standard input can't be read. No command was begun"),
            Status::FileFault => f.write_str(
                "the file of the first command without a reply can't be read or kept. No later command was begun",
            ),
            Status::OutputFault => f.write_str(
                "standard output can't be written. No later command was begun",
            ),
            Status::NoMemory => f.write_str("out of memory. No further command was begun"),
            Status::InputLong => write!(
                f,
                "the script is longer than {LONGEST} bytes. No command was begun"
            ),
        }
    }
}
