//! The allocator, the readers and the writers fail where a test wants it, and std's readers and writers are devices.

use crate::failing::{End, LimitedWriter, PieceReader, Ration};
use sabr_model::{Device, Failed, Read, Write, write_text};
use std::alloc::{AllocError, Allocator};
use std::cell::Cell;
use std::io::{self, BufWriter};
use std::test::Fail;

fn pushed<A: Allocator>(alloc: A, count: u8) -> Result<usize, AllocError> {
    let mut list = Vec::new(alloc);
    for number in 0..count {
        list.push(number)?;
    }
    Ok(list.len())
}

#[test]
fn each_request_is_refused_in_turn(rt: HostRuntime) -> Result<(), Fail> {
    let ration = Ration::new(rt.alloc(), 0);
    assert_eq!(rt; pushed(&ration, 0), Ok(0));
    assert_eq!(rt; ration.requests(), 0);
    assert_eq!(rt; pushed(&ration, 100), Ok(100));
    let requests = ration.requests();
    assert!(rt; requests > 1);
    for request in 1..=requests {
        ration.refuse(request);
        assert_eq!(rt; pushed(&ration, 100), Err(AllocError), "at {request}");
        assert_eq!(rt; ration.requests(), request);
        assert_eq!(rt; pushed(&ration, 100), Ok(100));
    }
    ration.refuse(1);
    let mut list = Vec::new(&ration);
    assert!(rt; list.push(7).is_err());
    assert!(rt; list.push(8).is_ok());
    assert_eq!(rt; list.as_slice(), [8].as_slice());
    assert_eq!(rt; ration.requests(), 2);
    Ok(())
}

#[test]
fn pieces_end_where_they_are_told_to(rt: HostRuntime) -> Result<(), Fail> {
    let text = b"a text of 22 bytes ...";
    for piece in [1usize, 2, 4096] {
        for limit in 0..=text.len() {
            let mut writer = LimitedWriter::new(rt.alloc(), limit, piece);
            assert_eq!(rt; write_text(&mut writer, text).is_ok(), limit == text.len());
            assert_eq!(rt; writer.held(), &text[..limit]);
            assert!(rt; !writer.is_flushed());
            assert_eq!(rt; writer.flush(), Ok(()));
            assert!(rt; writer.is_flushed());
        }
    }
    let mut writer = LimitedWriter::with_failing_flush(rt.alloc(), 9, 9);
    assert_eq!(rt; writer.flush(), Err(Failed));
    assert!(rt; !writer.is_flushed());
    let mut buffer = [0u8; 4];
    let mut ends = PieceReader::new(b"abcdef", 5, End::Ended);
    assert_eq!(rt; ends.read(&mut buffer), Ok(4));
    assert_eq!(rt; buffer, *b"abcd");
    assert_eq!(rt; ends.read(&mut buffer), Ok(2));
    assert_eq!(rt; ends.read(&mut buffer), Ok(0));
    let mut fails = PieceReader::failing_after(b"abc", 2, 1);
    for answer in [Ok(1), Ok(1), Err(Failed), Err(Failed)] {
        assert_eq!(rt; fails.read(&mut buffer), answer);
    }
    Ok(())
}

/// A writer of std that reports how many bytes it took, and whose flush can fail.
#[derive(Drop)]
struct Taking<'a> {
    taken: &'a Cell<usize>,
    flush_fails: bool,
}

impl<'a> io::Write for Taking<'a> {
    fn write(&mut self, buf: &[u8]) -> io::Result<usize> {
        self.taken.set(self.taken.get().saturating_add(buf.len()));
        Ok(buf.len())
    }

    fn flush(&mut self) -> io::Result<()> {
        if self.flush_fails {
            return Err(io::Error::from(io::ErrorKind::TimedOut));
        }
        Ok(())
    }
}

#[test]
fn readers_and_writers_of_std_are_devices(rt: HostRuntime) -> Result<(), Fail> {
    let mut buffer = [0u8; 4];
    let mut reader = Device::new(b"xyz".as_slice());
    assert_eq!(rt; reader.read(&mut buffer), Ok(3));
    assert_eq!(rt; reader.read(&mut buffer), Ok(0));
    let mut writer = Device::new(Vec::new(rt.alloc()));
    assert!(rt; write_text(&mut writer, b"xyz").is_ok());
    assert_eq!(rt; writer.flush(), Ok(()));
    for (flush_fails, answer) in [(false, Ok(())), (true, Err(Failed))] {
        let taken = Cell::new(0);
        let taking = Taking {
            taken: &taken,
            flush_fails,
        };
        let mut writer = Device::new(BufWriter::new(rt.alloc(), taking)?);
        assert!(rt; write_text(&mut writer, b"xyz").is_ok());
        assert_eq!(rt; taken.get(), 0);
        assert_eq!(rt; writer.flush(), answer);
        assert_eq!(rt; taken.get(), 3);
    }
    Ok(())
}
