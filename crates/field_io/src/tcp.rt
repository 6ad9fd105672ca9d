ghost use Rattle.std.specs.Prelude.{◌≡◌, ◌≤◌, None, is_some};
ghost use Rattle.field_io.specs.Causes.{Rose};

use crate::{Dialer, Failed};
use field_text::Text;
use std::io::{Read, Write};
use std::net::{Net, OpenStream, TcpStream};
use std::time::Duration;

/// The port of an authority that names none.
const HTTP_PORT: u16 = 80;

/// Connections over real sockets. It tells nothing of its exchanges. A send or a take that waits longer than the
/// patience has failed.
#[derive(Drop)]
pub struct TcpDialer<R: Net + Drop> {
    runtime: R,
    patience: Duration,
    stream: Option<R::Stream>,
    has_taken: bool,
    faults: u64,
    ends: u64,
}

impl<R: Net + Drop> TcpDialer<R> {
    pub fn new(runtime: R, patience: Duration) -> TcpDialer<R> {
        TcpDialer {
            runtime,
            patience,
            stream: None,
            has_taken: false,
            faults: 0,
            ends: 0,
        }
    }

    // The stream, once it waits no longer than the patience.
    fn connected(&self, authority: &Text) -> Option<R::Stream> {
        let (host, port) = host_and_port(authority.as_str());
        let stream = TcpStream::connect(&self.runtime, (host, port)).ok()?;
        stream.set_read_timeout(Some(self.patience)).ok()?;
        stream.set_write_timeout(Some(self.patience)).ok()?;
        Some(stream)
    }

    fn fault(&mut self) -> Failed
        ensures later { self.old.faults ≤ self.new.faults }
        ensures rose { Rose self.old.faults self.new.faults }
        ensures kept { self.new ≡ record self.old { faults = self.new.faults } }
    {
        self.faults = self.faults.saturating_add(1);
        Failed
    }
}

// The host of an authority, without the brackets of an IPv6 address, and its port.
fn host_and_port(authority: &str) -> (&str, u16) {
    let (host, port) = match authority.rsplit_once(':') {
        Some((host, "")) => (host, HTTP_PORT),
        Some((host, port)) => match port.parse::<u16>() {
            Ok(port) => (host, port),
            Err(_) => (authority, HTTP_PORT),
        },
        None => (authority, HTTP_PORT),
    };
    match host
        .strip_prefix('[')
        .and_then(|inner| inner.strip_suffix(']'))
    {
        Some(inner) => (inner, port),
        None => (host, port),
    }
}

impl<R: Net + Drop> Dialer for TcpDialer<R> {
    ghost Peer = { Unit {0} };

    ghost peer = { λ _. tt };

    ghost carried = { λ _. None };

    ghost faults = { λ d. d.faults };

    ghost ends = { λ d. d.ends };

    ghost is_open = { λ d. is_some d.stream };

    ghost has_taken = { λ d. d.has_taken };

    fn dial(&mut self, authority: &Text) -> Result<(), Failed> {
        self.has_taken = false;
        self.stream = self.connected(authority);
        if self.stream.is_none() {
            return Err(self.fault());
        }
        Ok(())
    }

    fn send(&mut self, bytes: &[u8]) -> Result<usize, Failed> {
        if let Some(stream) = &mut self.stream
            && let Ok(count) = stream.write(bytes)
            && count > 0
        {
            return Ok(count);
        }
        Err(self.fault())
    }

    fn take(&mut self, buf: &mut [u8]) -> Result<usize, Failed> {
        self.has_taken = true;
        let count = match &mut self.stream {
            Some(stream) => stream.read(buf).ok(),
            None => None,
        };
        match count {
            Some(0) => {
                self.ends = self.ends.saturating_add(1);
                Ok(0)
            }
            Some(count) => Ok(count),
            None => Err(self.fault()),
        }
    }

    fn hang_up(&mut self) {
        self.stream = None;
    }
}
