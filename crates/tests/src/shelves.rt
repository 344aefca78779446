//! Input from and output to the operating system.

use edge_io::{DirShelf, StreamSink, TakeFault, WriteFault, put_all, take_all};
use std::io::{ErrorKind, Write};
use std::test::Fail;
use std::{fs, io, process};

const TEXT: &[u8] = b"one line of text, and some";

/// A stream that accepts one byte per write, six in total, and fails afterwards.
#[derive(Drop)]
struct Narrow {
    taken: Vec<u8>,
}

impl Write for Narrow {
    fn write(&mut self, buf: &[u8]) -> io::Result<usize> {
        let Some(byte) = buf.first() else {
            return Ok(0);
        };
        if self.taken.len() == 6 {
            return Err(io::Error::from(ErrorKind::BrokenPipe));
        }
        self.taken.push(*byte)?;
        Ok(1)
    }

    fn flush(&mut self) -> io::Result<()> {
        Ok(())
    }
}

#[test]
fn writes_to_streams(rt: HostRuntime) {
    let mut narrow = Narrow {
        taken: Vec::new(rt.alloc()),
    };
    let mut sink = StreamSink::new(&mut narrow);
    assert_eq!(rt; put_all(&mut sink, b"12345"), Ok(()));
    assert_eq!(rt; put_all(&mut sink, b"6789"), Err(WriteFault));
    assert_eq!(rt; narrow.taken.as_slice(), b"123456".as_slice());
}

#[test]
fn takes_files_of_the_system(rt: HostRuntime) -> Result<(), Fail> {
    let alloc = rt.alloc();
    let name = format!(in alloc; "/tmp/edge_io_test_{}", process::id(rt.process()))?;
    fs::write(&rt, name.as_str(), TEXT)?;
    let mut shelf = DirShelf::new(&rt);
    let taken = take_all(alloc, &mut shelf, name.as_str(), 64);
    assert_eq!(rt; taken.ok().as_deref(), Some(TEXT));
    fs::remove_file(&rt, name.as_str())?;
    assert_eq!(rt;
        take_all(alloc, &mut shelf, name.as_str(), 64).err(),
        Some(TakeFault::Read)
    );
    Ok(())
}
