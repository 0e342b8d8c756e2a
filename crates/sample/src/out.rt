// A file that is written in pieces.
use arrayvec::ArrayVec;
use std::env::FillError;
use std::fs::File;
use std::io::{ErrorKind, Write};
use std::rt::{Env, Files};
use std::{io, str};

const SIZE: usize = 4096;

// Room for a file's name; the system takes shorter ones only.
const NAME: usize = 4096;

// A writer that hands on a full buffer at a time, as std's `BufWriter` does on the heap. What is left in it is written by `flush`.
#[derive(Drop)]
pub struct Pieces<W> {
    writer: W,
    buffer: ArrayVec<u8, SIZE>,
}

impl<W: Write> Pieces<W> {
    fn new(writer: W) -> Self {
        Pieces {
            writer,
            buffer: ArrayVec::new(),
        }
    }
}

impl<W: Write> Write for Pieces<W> {
    fn write(&mut self, bytes: &[u8]) -> io::Result<usize> {
        if self.buffer.is_full() {
            self.flush()?;
        }
        let n = self.buffer.remaining_capacity().min(bytes.len());
        let _ = self.buffer.try_extend_from_slice(&bytes[..n]);
        Ok(n)
    }

    fn flush(&mut self) -> io::Result<()> {
        self.writer.write_all(&self.buffer)?;
        self.buffer.clear();
        Ok(())
    }
}

// Argument i, a file's name. Its bytes are put at the start of a lent buffer.
fn argument<'a>(rt: &impl Env, i: usize, name: &'a mut [u8; NAME]) -> io::Result<&'a str> {
    match rt.arg(i, name) {
        Ok(n) => str::from_utf8(&name[..n]).map_err(|_| io::Error::from(ErrorKind::InvalidData)),
        Err(FillError::TooLong) => Err(io::Error::from(ErrorKind::InvalidFilename)),
        Err(FillError::NotPresent) => Err(io::Error::from(ErrorKind::NotFound)),
    }
}

// Writes the file that argument i names, by what `put` puts. A line says if it cannot be opened or is not written whole.
pub fn write_file<R, Put>(rt: &R, i: usize, put: Put)
where
    R: Env + Eprint + Files,
    Put: FnOnce(&mut Pieces<R::File>) -> io::Result<()>,
    requires { Put.IsAlwaysCallable put }
{
    let mut name = [0; NAME];
    let name = match argument(rt, i, &mut name) {
        Ok(name) => name,
        Err(e) => {
            let _ = eprintln!(rt; "file name: {e}");
            return;
        }
    };
    let file = match File::create(rt, name) {
        Ok(file) => file,
        Err(e) => {
            let _ = eprintln!(rt; "{name}: {e}");
            return;
        }
    };
    let mut pieces = Pieces::new(file);
    if put(&mut pieces).and_then(|()| pieces.flush()).is_err() {
        let _ = eprintln!(rt; "{name}: not written whole");
    }
}
