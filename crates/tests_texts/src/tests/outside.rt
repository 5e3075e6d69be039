//! Reading whole and writing whole over std's streams, of which no clause tells the bytes.

use cat_text::{Counted, OutsideFault, ReadFault, read_whole, write_whole};
use std::io;
use std::io::{ErrorKind, Read};
use std::test::Fail;

const BYTES: &[u8] = b"abcdefgh";

/// A reader that can only fail.
#[derive(Drop)]
struct Broken;

impl Read for Broken {
    fn read(&mut self, _buf: &mut [u8]) -> io::Result<usize> {
        Err(io::Error::from(ErrorKind::BrokenPipe))
    }
}

#[test]
fn a_reader_that_ends_and_one_that_breaks(rt: HostRuntime) -> Result<(), Fail> {
    let mut whole = Counted::new(BYTES);
    assert!(rt; read_whole(rt.alloc(), &mut whole, 8)?.as_slice() == BYTES);
    let mut broken = Counted::new(BYTES.chain(Broken));
    let fault = read_whole(rt.alloc(), &mut broken, 100).err();
    assert_eq!(rt; fault, Some(ReadFault::Failed));
    Ok(())
}

#[test]
fn a_writer_with_room_and_one_without(rt: HostRuntime) -> Result<(), Fail> {
    let mut roomy = [b'.'; 10];
    let written = write_whole(&mut Counted::new(roomy.as_mut_slice()), BYTES);
    assert_eq!(rt; (written, &roomy), (Ok(()), b"abcdefgh.."));
    let mut short = [b'.'; 4];
    let failed = write_whole(&mut Counted::new(short.as_mut_slice()), BYTES);
    assert_eq!(rt; (failed, &short), (Err(OutsideFault::Failed), b"abcd"));
    Ok(())
}
