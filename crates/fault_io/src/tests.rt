ghost use Rattle.std.specs.Prelude.{◌≤◌, IfOk};

use super::*;
use std::io;
use std::io::ErrorKind;
use std::test::Fail;

const DIGITS: &[u8] = b"0123456789";

#[test]
fn a_source_gives_step_by_step_and_fails_once(rt: HostRuntime) -> Result<(), Fail> {
    let alloc = rt.alloc();
    let mut source = BytesIn::make(DIGITS.to_vec(alloc)?, 4, [2].to_vec(alloc)?);
    let mut buf = [0; 8];
    let mut one = [0; 1];
    assert_eq!(rt; source.take(&mut buf), Ok(4));
    assert_eq!(rt; buf, *b"0123\0\0\0\0");
    assert_eq!(rt; source.take(&mut buf), Err(Failed));
    assert_eq!(rt; source.take(&mut buf), Ok(4));
    assert_eq!(rt; buf, *b"4567\0\0\0\0");
    assert_eq!(rt; source.take(&mut one), Ok(1));
    assert_eq!(rt; one, *b"8");
    assert_eq!(rt; source.take(&mut buf), Ok(1));
    assert_eq!(rt; buf, *b"9567\0\0\0\0");
    assert_eq!(rt; source.take(&mut buf), Ok(0));
    Ok(())
}

#[test]
fn a_sink_takes_up_to_its_room_and_fails_once(rt: HostRuntime) -> Result<(), Fail> {
    let alloc = rt.alloc();
    let mut sink = BytesOut::make(alloc, 6, 4, [2, 6].to_vec(alloc)?)?;
    assert_eq!(rt; sink.put(b"abcde"), Ok(4));
    assert_eq!(rt; sink.put(b"e"), Err(Failed));
    assert_eq!(rt; sink.put(b""), Ok(0));
    assert_eq!(rt; sink.put(b"efg"), Ok(2));
    assert_eq!(rt; sink.put(b"g"), Err(Failed));
    assert_eq!(rt; sink.finish(), Err(Failed));
    assert_eq!(rt; sink.finish(), Ok(()));
    assert_eq!(rt; sink.bytes(), b"abcdef".as_slice());
    Ok(())
}

#[test]
fn a_piece_goes_out_whole_or_up_to_the_call_that_fails(rt: HostRuntime) -> Result<(), Fail> {
    let alloc = rt.alloc();
    let mut whole = BytesOut::make(alloc, 16, 4, Vec::new(alloc))?;
    assert_eq!(rt; write_whole(DIGITS, &mut whole), Ok(()));
    assert_eq!(rt; whole.bytes(), DIGITS);
    for (call, front) in [(1, ""), (2, "0123"), (3, "01234567")] {
        let mut sink = BytesOut::make(alloc, 16, 4, [call].to_vec(alloc)?)?;
        assert_eq!(rt; write_whole(DIGITS, &mut sink), Err(WriteFault));
        assert_eq!(rt; sink.bytes(), front.as_bytes(), "at call {call}");
    }
    Ok(())
}

#[test]
fn a_reader_of_std_is_read_to_its_end(rt: HostRuntime) {
    let mut source = StdSource::make(DIGITS);
    let mut buf = [0; 8];
    assert_eq!(rt; source.take(&mut buf), Ok(8));
    assert_eq!(rt; buf, *b"01234567");
    assert_eq!(rt; source.take(&mut buf), Ok(2));
    assert_eq!(rt; source.take(&mut buf), Ok(0));
}

#[test]
fn a_full_writer_of_std_is_a_fault(rt: HostRuntime) {
    let mut memory = [0; 8];
    let mut sink = StdSink::make(memory.as_mut_slice());
    assert_eq!(rt; write_whole(b"abc", &mut sink), Ok(()));
    assert_eq!(rt; sink.finish(), Ok(()));
    assert_eq!(rt; write_whole(b"", &mut sink), Ok(()));
    assert_eq!(rt; write_whole(b"defghijk", &mut sink), Err(WriteFault));
    assert_eq!(rt; memory, *b"abcdefgh");
}

/// What a stream of std answers at one call.
#[derive(Clone, Copy)]
enum Answer {
    Moves(usize),
    Fails(ErrorKind),
}

use Answer::{Fails, Moves};

const INTERRUPTED: Answer = Fails(ErrorKind::Interrupted);

/// A stream of std that answers its calls as told, in order, and behind these is always
/// interrupted. It counts all calls, and flushes apart.
#[derive(Drop)]
struct Told {
    answers: &'static [Answer],
    calls: usize,
    flushes: usize,
}

impl Told {
    fn make(answers: &'static [Answer]) -> Told {
        Told {
            answers,
            calls: 0,
            flushes: 0,
        }
    }

    fn answer(&mut self, size: usize) -> io::Result<usize>
        ensures { IfOk result (λ n. n ≤ size) }
    {
        let answer = self.answers.get(self.calls).copied();
        self.calls = self.calls.saturating_add(1);
        match answer {
            Some(Moves(count)) => Ok(count.min(size)),
            Some(Fails(kind)) => Err(io::Error::from(kind)),
            None => Err(io::Error::from(ErrorKind::Interrupted)),
        }
    }
}

impl io::Read for Told {
    fn read(&mut self, buf: &mut [u8]) -> io::Result<usize> {
        self.answer(buf.len())
    }
}

impl io::Write for Told {
    fn write(&mut self, buf: &[u8]) -> io::Result<usize> {
        self.answer(buf.len())
    }

    fn flush(&mut self) -> io::Result<()> {
        self.flushes = self.flushes.saturating_add(1);
        self.answer(0).map(|_| ())
    }
}

#[test]
fn a_failed_read_is_passed_on_and_not_tried_again(rt: HostRuntime) {
    let mut reader = Told::make(&[Moves(2), Fails(ErrorKind::Other), Moves(3)]);
    let mut source = StdSource::make(&mut reader);
    let mut buf = [0; 8];
    assert_eq!(rt; source.take(&mut buf), Ok(2));
    assert_eq!(rt; source.take(&mut buf), Err(Failed));
    assert_eq!(rt; source.take(&mut buf), Ok(3));
    assert_eq!(rt; reader.calls, 3);
}

#[test]
fn an_interrupted_read_is_tried_again(rt: HostRuntime) {
    let mut reader = Told::make(&[INTERRUPTED, INTERRUPTED, Moves(3)]);
    let mut source = StdSource::make(&mut reader);
    let mut buf = [0; 8];
    assert_eq!(rt; source.take(&mut buf), Ok(3));
    assert_eq!(rt; source.take(&mut buf), Err(Failed));
    assert_eq!(rt; reader.calls, 3 + MOST_TRIES);
}

#[test]
fn a_failed_write_is_passed_on_and_not_tried_again(rt: HostRuntime) {
    let mut writer = Told::make(&[
        Moves(2),
        Fails(ErrorKind::Other),
        Moves(9),
        Moves(0),
        Moves(1),
    ]);
    let mut sink = StdSink::make(&mut writer);
    assert_eq!(rt; sink.put(b"abc"), Ok(2));
    assert_eq!(rt; sink.put(b"c"), Err(Failed));
    assert_eq!(rt; sink.put(b"c"), Ok(1));
    assert_eq!(rt; sink.put(b""), Ok(0));
    assert_eq!(rt; sink.put(b"d"), Err(Failed));
    assert_eq!(rt; sink.put(b"d"), Ok(1));
    assert_eq!(rt; writer.calls, 5);
    assert_eq!(rt; writer.flushes, 0);
}

#[test]
fn an_interrupted_write_is_tried_again(rt: HostRuntime) {
    let mut writer = Told::make(&[INTERRUPTED, Moves(3)]);
    let mut sink = StdSink::make(&mut writer);
    assert_eq!(rt; write_whole(b"abc", &mut sink), Ok(()));
    assert_eq!(rt; sink.put(b"d"), Err(Failed));
    assert_eq!(rt; writer.calls, 2 + MOST_TRIES);
}

#[test]
fn to_finish_flushes_once_and_passes_a_failed_flush_on(rt: HostRuntime) {
    let mut writer = Told::make(&[Moves(0), Fails(ErrorKind::Other), Moves(0)]);
    let mut sink = StdSink::make(&mut writer);
    assert_eq!(rt; sink.finish(), Ok(()));
    assert_eq!(rt; sink.finish(), Err(Failed));
    assert_eq!(rt; sink.finish(), Ok(()));
    assert_eq!(rt; writer.flushes, 3);
}

#[test]
fn an_interrupted_flush_is_tried_again(rt: HostRuntime) {
    let mut writer = Told::make(&[INTERRUPTED, Moves(0)]);
    let mut sink = StdSink::make(&mut writer);
    assert_eq!(rt; sink.finish(), Ok(()));
    assert_eq!(rt; sink.finish(), Err(Failed));
    assert_eq!(rt; writer.flushes, 2 + MOST_TRIES);
}
