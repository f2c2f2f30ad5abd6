//! The adapters over std's readers and writers.
use drt_io::{FromRead, FromWrite, ReadEnd, read_all, write_all};
use std::alloc::Global;
use std::io;
use std::io::{Cursor, Read};
use std::test::Fail;

const TEXT: &str = "drt 1\ntask T\nvertex a 2 5\nend\n";

// Whether a text that is read through one adapter is what the other one writes of it.
fn is_passed_on(alloc: Global) -> Result<bool, Fail> {
    let mut source = FromRead::new(TEXT.as_bytes());
    let all = read_all(alloc, &mut source, 100).ok().ok_or("read")?;
    let mut held = Vec::new(alloc);
    let mut sink = FromWrite::new(&mut held);
    let found = write_all(&mut sink, all.as_slice());
    drop(sink);
    Ok(found.is_ok() && held.as_slice() == TEXT.as_bytes())
}

#[test]
fn the_adapters_pass_bytes_on(rt: HostRuntime) -> Result<(), Fail> {
    assert!(rt; is_passed_on(rt.alloc())?);
    Ok(())
}

#[test]
fn a_writer_that_takes_nothing_fails(rt: HostRuntime) -> Result<(), Fail> {
    let mut room = [0u8; 30];
    let mut sink = FromWrite::new(Cursor::new(room.as_mut_slice()));
    let is_whole = write_all(&mut sink, TEXT.as_bytes()).is_ok();
    let is_refused = write_all(&mut sink, b"x").is_err();
    drop(sink);
    assert!(rt; is_whole && is_refused && room.as_slice() == TEXT.as_bytes());
    Ok(())
}

// A reader that fails once it has given what it has.
#[derive(Drop)]
struct Broken {
    rest: &'static [u8],
}

impl Read for Broken {
    fn read(&mut self, buf: &mut [u8]) -> io::Result<usize> {
        if self.rest.is_empty() {
            return Err(io::Error::from(io::ErrorKind::BrokenPipe));
        }
        self.rest.read(buf)
    }
}

#[test]
fn an_error_of_the_reader_ends_the_reading(rt: HostRuntime) {
    let mut source = FromRead::new(Broken {
        rest: TEXT.as_bytes(),
    });
    let found = read_all(rt.alloc(), &mut source, 100).map(|all| all.as_slice().len());
    assert!(rt; found == Err(ReadEnd::Failed));
}
