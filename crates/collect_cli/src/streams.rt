// The standard streams: which are open, and what the system said of them.
ghost use Rattle.std.specs.Prelude.{◌≡◌, None, Some};
ghost use Rattle.std.specs.Option.{option_or};
ghost use Rattle.std.specs.IoError.{error_kind};

use std::fs::OpenOptions;
use std::io;
use std::io::{Read, Write};
use std::os::fd::{AsRawFd, IntoRawFd};

const NULL_DEVICE: &str = "/dev/null";

// The descriptors of the standard streams are 0, 1 and 2.
const LAST_STREAM: i32 = 2;

/// Gives each standard stream that is closed the null device, so that no file that is opened later has its descriptor.
pub fn hold_closed_streams(rt: &HostRuntime) -> io::Result<()> {
    for _ in 0..=LAST_STREAM {
        let null = OpenOptions::new()
            .read(true)
            .write(true)
            .open(rt, NULL_DEVICE)?;
        if null.as_raw_fd() > LAST_STREAM {
            return Ok(());
        }
        // the descriptor stays open until the program ends
        let _stream = null.into_raw_fd();
    }
    Ok(())
}

/// A stream that keeps what the system said of its first failed call.
#[derive(Drop)]
pub struct Watched<S> {
    stream: S,
    pub trouble: Option<io::Error>,
}

impl<S> Watched<S> {
    pub fn new(stream: S) -> Watched<S>
        ensures { result.trouble ≡ None }
    {
        Watched {
            stream,
            trouble: None,
        }
    }

    // Keeps what a call failed of, unless one failed before, and gives an error of the same kind.
    fn keep(&mut self, error: io::Error) -> io::Error
        ensures stream { self.new.stream ≡ self.old.stream }
        ensures first { self.new.trouble ≡ option_or self.old.trouble (Some error) }
        ensures kind { error_kind result ≡ error_kind error }
    {
        let again = io::Error::from(error.kind());
        if self.trouble.is_none() {
            self.trouble = Some(error);
        }
        again
    }
}

impl<S: Read> Read for Watched<S> {
    fn read(&mut self, buf: &mut [u8]) -> io::Result<usize> {
        match self.stream.read(buf) {
            Ok(count) => Ok(count),
            Err(error) => Err(self.keep(error)),
        }
    }
}

impl<S: Write> Write for Watched<S> {
    fn write(&mut self, buf: &[u8]) -> io::Result<usize> {
        match self.stream.write(buf) {
            Ok(count) => Ok(count),
            Err(error) => Err(self.keep(error)),
        }
    }

    fn flush(&mut self) -> io::Result<()> {
        self.stream.flush()
    }
}
