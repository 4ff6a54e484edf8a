// Standard input and output of the programs. Where the system can't do what is asked, it is said on standard error, so
// that half a listing is not taken for a whole one: a program here has no exit status of its own, and `./espandim` gives
// status 1 where something was said.
//
// What comes in and whether it goes out is up to the system, so no contract can fix these two results.
#![tactic(auto)]

mod page;

ghost use Rattle.std.specs.Prelude.{length, ◌≡◌, IsOk};
ghost use Rattle.streams.specs.Streams.{Moved};

pub use page::Page;
use std::io::{ErrorKind, Read};
use std::{fmt, io};

// Why a program stops: something could not be read or written. What there is to say of that has been said.
#[derive(Clone, Copy, Debug, PartialEq, Eq)]
pub struct Stopped;

// So that `?` on what is written to a page stops the program.
impl From<fmt::Error> for Stopped {
    fn from(_error: fmt::Error) -> Stopped {
        Stopped
    }
}

// Standard input and output, and the name of the program that what is said begins with.
#[derive(Clone, Copy)]
pub struct Streams<'a> {
    rt: &'a HostRuntime,
    program: &'a [u8],
}

impl<'a> Streams<'a> {
    pub fn new(rt: &'a HostRuntime, program: &'a [u8]) -> Streams<'a>
        ensures { result.program.now ≡ program.now }
    {
        Streams { rt, program }
    }

    // Reads once, and tells how many bytes came to the start of the piece: 0 at the end of the input. Where it can't be
    // read, that has been said.
    pub fn read(&self, piece: &mut [u8]) -> Result<usize, Stopped>
        ensures { Moved (length piece.old) result }
    {
        let mut input = self.rt.stdin();
        input
            .read(piece)
            .map_err(|error| self.complain(b"standard input", error))
    }

    // Writes all of a text. Where not all of it went out, that has been said, but for a pipe that nobody reads any more:
    // whoever closed it knows. No text at all is always out.
    pub fn print(&self, text: &[u8]) -> Result<(), Stopped>
        ensures { length text.now ≡ 0 → IsOk result }
    {
        if text.is_empty() {
            return Ok(());
        }
        self.rt.write_all(text).map_err(|error| {
            if error.kind() == ErrorKind::BrokenPipe {
                return Stopped;
            }
            self.complain(b"standard output", error)
        })
    }

    // Says what the program can't read or write, and the system's reason.
    fn complain(&self, what: &[u8], error: io::Error) -> Stopped {
        let told = self.rt.stderr();
        let _ = told.write_all(self.program);
        let _ = told.write_all(b": ");
        let _ = told.write_all(what);
        let _ = told.write_all(b": ");
        let _ = self.say_reason(error);
        let _ = told.write_all(b"\n");
        Stopped
    }

    // The system's reason in its words, without the number that std sets behind them. With no memory for that, as std has
    // it.
    fn say_reason(&self, error: io::Error) -> io::Result<()> {
        let Ok(text) = format!(in self.rt.alloc(); "{error}") else {
            return self.rt.eprint(error);
        };
        match text.split_once(" (os error ") {
            Some((words, _)) => self.rt.eprint(words),
            None => self.rt.eprint(text.as_str()),
        }
    }
}
