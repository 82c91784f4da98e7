use crate::{
    MemSink, MemSource, PureSource, ReadAnswer, Sink, Source, StdSink, StdSource, WriteAnswer,
    WriteFault, write_all,
};
use ob_base::List;
use std::io;
use std::io::{Read, Write};
use std::test::Fail;

// Sizes of 2 and 9 and a buffer of 4, and the second call fails.
#[test]
fn a_source_keeps_to_its_sizes_and_its_faults(rt: HostRuntime) -> Result<(), Fail> {
    let alloc = rt.alloc();
    let bytes = List::from_slice(alloc, b"abcdefghi")?;
    let sizes = List::from_slice(alloc, &[2, 9])?;
    if !MemSource::are_sizes(sizes.as_slice()) {
        return Ok(assert!(rt; false));
    }
    let mut source = MemSource::new(bytes, sizes, List::from_slice(alloc, &[2])?);
    let mut buf = [0u8; 4];
    assert!(rt; source.read(&mut buf) == ReadAnswer::Got(2));
    assert_eq!(rt; buf, [97, 98, 0, 0]);
    assert!(rt; source.read(&mut buf) == ReadAnswer::Failed);
    assert!(rt; source.read(&mut buf) == ReadAnswer::Got(4));
    assert!(rt; source.read(&mut buf) == ReadAnswer::Got(3));
    assert_eq!(rt; buf, [103, 104, 105, 102]);
    assert!(rt; source.read(&mut buf) == ReadAnswer::End);
    Ok(())
}

#[test]
fn a_pure_source_hands_out_all(rt: HostRuntime) -> Result<(), Fail> {
    let alloc = rt.alloc();
    let mut source = PureSource::new(List::from_slice(alloc, b"abc")?);
    let mut buf = [0u8; 2];
    assert!(rt; source.read(&mut buf) == ReadAnswer::Got(2));
    assert!(rt; source.read(&mut buf) == ReadAnswer::Got(1));
    assert_eq!(rt; buf, [99, 98]);
    assert!(rt; source.read(&mut buf) == ReadAnswer::End);
    Ok(())
}

// Room for 5 bytes, and the second call fails.
#[test]
fn a_sink_keeps_to_its_room_and_its_faults(rt: HostRuntime) -> Result<(), Fail> {
    let alloc = rt.alloc();
    let mut sink = MemSink::new(alloc, 5, List::from_slice(alloc, &[2])?)?;
    assert!(rt; sink.write(b"abc") == WriteAnswer::Took(3));
    assert!(rt; sink.write(b"d") == WriteAnswer::Failed);
    assert!(rt; sink.write(b"def") == WriteAnswer::Took(2));
    assert!(rt; sink.write(b"f") == WriteAnswer::Failed);
    assert_eq!(rt; sink.bytes(), b"abcde".as_slice());
    Ok(())
}

#[test]
fn all_is_written_or_a_write_failed(rt: HostRuntime) -> Result<(), Fail> {
    let alloc = rt.alloc();
    let mut sink = MemSink::new(alloc, 5, List::new(alloc))?;
    assert!(rt; write_all(&mut sink, b"") == Ok(()));
    assert!(rt; write_all(&mut sink, b"abc") == Ok(()));
    assert!(rt; write_all(&mut sink, b"defg") == Err(WriteFault));
    assert_eq!(rt; sink.bytes(), b"abcde".as_slice());
    Ok(())
}

#[test]
fn a_reader_and_a_writer_serve(rt: HostRuntime) -> Result<(), Fail> {
    let alloc = rt.alloc();
    let mut source = StdSource::new(b"abc".as_slice());
    let mut buf = [0u8; 2];
    assert!(rt; source.read(&mut buf) == ReadAnswer::Got(2));
    assert_eq!(rt; buf, [97, 98]);
    assert!(rt; source.read(&mut buf) == ReadAnswer::Got(1));
    assert!(rt; source.read(&mut buf) == ReadAnswer::End);
    let mut sink = StdSink::new(Vec::<u8>::new(alloc));
    assert!(rt; write_all(&mut sink, b"abc") == Ok(()));
    Ok(())
}

// Its first read fails, and each later one gives a byte.
#[derive(Drop)]
struct FailsOnce {
    failed: bool,
}

impl Read for FailsOnce {
    fn read(&mut self, buf: &mut [u8]) -> io::Result<usize> {
        if !self.failed {
            self.failed = true;
            return Err(io::ErrorKind::Other.into());
        }
        if buf.is_empty() {
            return Ok(0);
        }
        buf[0] = b'a';
        Ok(1)
    }
}

// It takes nothing.
#[derive(Drop)]
struct Full;

impl Write for Full {
    fn write(&mut self, _bytes: &[u8]) -> io::Result<usize> {
        Ok(0)
    }

    fn flush(&mut self) -> io::Result<()> {
        Ok(())
    }
}

#[test]
fn an_error_of_the_system_is_a_fault(rt: HostRuntime) -> Result<(), Fail> {
    let mut source = StdSource::new(FailsOnce { failed: false });
    let mut buf = [0u8; 2];
    assert!(rt; source.read(&mut buf) == ReadAnswer::Failed);
    assert!(rt; source.read(&mut buf) == ReadAnswer::Got(1));
    let mut sink = StdSink::new(Full);
    assert!(rt; sink.write(b"a") == WriteAnswer::Failed);
    assert!(rt; write_all(&mut sink, b"ab") == Err(WriteFault));
    Ok(())
}
