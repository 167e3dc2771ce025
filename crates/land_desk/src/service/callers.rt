//! TCP connections, with timeouts.
use crate::service::connections::Connections;
use crate::service::timer::{IDLE_TIMEOUT, RequestTimer};
use land_streams::counted_reader::MAX_READS;
use std::io::{Read, Write};
use std::net::{Shutdown, TcpListener, TcpStream};
use std::time::Duration;
use std::{io, time};

/// Connections to a TCP port, one at a time.
///
/// A read fails if no byte arrives for 30 s, or if a request takes longer than 60 s from its first byte to
/// its last. A write fails if the client accepts no byte for 30 s. So a slow client does not block the
/// others.
#[derive(Drop)]
pub struct Callers<'a, M> {
    listener: TcpListener,
    watch: &'a RequestTimer<M>,
}

impl<'a, M: time::Clock> Callers<'a, M> {
    /// Creates the source of the connections to `listener`. `watch`: the timer of the connection that is
    /// served.
    pub fn new(listener: TcpListener, watch: &'a RequestTimer<M>) -> Callers<'a, M> {
        Callers { listener, watch }
    }
}

/// Reads from a connection, with timeouts.
#[derive(Drop)]
pub struct TimedReader<'a, M> {
    stream: TcpStream,
    watch: &'a RequestTimer<M>,
}

impl<'a, M: time::Clock> TimedReader<'a, M> {
    /// Reads and discards the rest of the input, for at most 1 s.
    fn drain(&mut self) -> io::Result<()> {
        let served = self.watch.now()?;
        let mut piece = [0; 4096];
        for _ in 0..MAX_READS {
            let left = self.watch.linger_left(served)?;
            self.stream.set_read_timeout(Some(left))?;
            if self.stream.read(&mut piece)? == 0 {
                return Ok(());
            }
        }
        Ok(())
    }
}

impl<'a, M: time::Clock> Read for TimedReader<'a, M> {
    fn read(&mut self, buf: &mut [u8]) -> io::Result<usize> {
        let next_timeout = self.watch.next_timeout()?;
        self.stream.set_read_timeout(Some(next_timeout))?;
        let count = self.stream.read(buf)?;
        self.watch.start()?;
        Ok(count)
    }
}

/// Writes to a connection, with a timeout.
#[derive(Drop)]
pub struct TimedWriter<'a, M> {
    stream: TcpStream,
    watch: &'a RequestTimer<M>,
}

impl<'a, M: time::Clock> Write for TimedWriter<'a, M> {
    fn write(&mut self, buf: &[u8]) -> io::Result<usize> {
        let count = self.stream.write(buf)?;
        self.watch.reset();
        Ok(count)
    }

    fn flush(&mut self) -> io::Result<()> {
        Ok(())
    }
}

/// A connection has a reader and a writer, two handles of one socket, which is closed when both are dropped.
///
/// Each reply is sent at once (`TCP_NODELAY`), even if the one before is not acknowledged yet. After the last
/// reply the write side is shut down, and input is discarded for at most 1 s: if a socket is closed with
/// unread bytes, TCP resets the connection and the client may lose the reply.
impl<'a, M: time::Clock + Drop> Connections for Callers<'a, M> {
    type Reader = TimedReader<'a, M>;

    type Writer = TimedWriter<'a, M>;

    fn accept_connection(&mut self) -> io::Result<(TimedReader<'a, M>, TimedWriter<'a, M>)> {
        let watch = self.watch;
        let (stream, _) = self.listener.accept()?;
        stream.set_write_timeout(Some(Duration::from_secs(IDLE_TIMEOUT)))?;
        stream.set_nodelay(true)?;
        let reader = TimedReader {
            stream: stream.try_clone()?,
            watch,
        };
        watch.reset();
        Ok((reader, TimedWriter { stream, watch }))
    }

    fn close_connection(reader: &mut TimedReader<'a, M>, writer: &mut TimedWriter<'a, M>) {
        if writer.stream.shutdown(Shutdown::Write).is_ok() {
            match reader.drain() {
                Ok(()) | Err(_) => {}
            }
        }
    }
}
