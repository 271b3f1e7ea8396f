// Reading an input into a lent buffer until it is full or the input ends, and writing bytes to an output.
// Believe: specs/Streamed.
// No theorem beyond the contracts; proofs/Laws/Answered is for the crates that answer an input.
// Called by wirelist_io, listcheck_io and openqasm_io, each of which answers an input's bytes with bytes.
#![tactic(auto)]

ghost use Rattle.std.specs.Prelude.{ℕ, ◌≡◌, ◌≤◌, List, length, take, OnOk};
ghost use Rattle.std.specs.Io.KnownBytes.{Appends, Consumes};
ghost use Rattle.streams.specs.Streamed.{ReadsFirst, TakesFirst, AppendsPart, NeedsFirst, WritesAnswer, WritesPart};

use std::io;
use std::io::{ErrorKind, Read, Write};

// Reads until the buffer is full, the input ends or a read fails; answers how many bytes stand at the start of the buffer, and
// the error of a read that failed.
pub fn read_full<R: Read>(input: &mut R, buffer: &mut [u8]) -> (usize, io::Result<()>)
    ensures within { result.0 ≤ length buffer.new }
    ensures taken { Consumes (R.remaining input.old) (R.remaining input.new) (take result.0 buffer.new) }
    ensures whole { OnOk result.1 (ReadsFirst (length buffer.new) (R.remaining input.old) (take result.0 buffer.new)) }
{
    // No `for`: each read says how far it came.
    let mut done = 0;
    while done < buffer.len() {
        match input.read(&mut buffer[done..]) {
            Ok(0) => return (done, Ok(())),
            Ok(n) => done += n,
            Err(e) => return (done, Err(e)),
        }
    }
    (done, Ok(()))
}

// Writes all bytes, or stops at the first write that takes nothing or fails.
pub fn write_all<W: Write>(output: &mut W, bytes: &[u8]) -> io::Result<()>
    ensures whole { OnOk result (Appends (W.contents output.old) (W.contents output.new) bytes.now) }
    ensures part { AppendsPart (W.contents output.old) (W.contents output.new) bytes.now }
{
    // No `for`: each write says how far it came.
    let mut done = 0;
    while done < bytes.len() {
        match output.write(&bytes[done..]) {
            Ok(0) => return Err(io::Error::from(ErrorKind::WriteZero)),
            Ok(n) => done += n,
            Err(e) => return Err(e),
        }
    }
    Ok(())
}

// What answers the bytes of an input with bytes.
pub trait Answers {
    // The answer to all bytes of an input.
    ghost answer: { List ℕ → List ℕ };

    // The length of a buffer that holds every answer.
    ghost most_written: { ℕ };

    // The answer is written from the start of the text; answers how many bytes.
    fn put_answer(&self, bytes: &[u8], text: &mut [u8]) -> usize
        ensures within { result ≤ length text.new }
        ensures whole { most_written ≤ length text.old → take result text.new ≡ answer bytes.now };
}

// Reads an input, as much of it as the buffer holds and no byte more, and writes its answer. Where a read fails, what was read until
// then is taken for the whole, and the error is answered when that is written. The buffers are lent: one for what is read, one for the
// answer.
pub fn answer_input<A: Answers, R: Read, W: Write>(
    program: &A,
    input: &mut R,
    output: &mut W,
    buffer: &mut [u8],
    text: &mut [u8],
) -> io::Result<()>
    ensures whole { NeedsFirst A.answer (length buffer.old) → A.most_written ≤ length text.old
        → OnOk result (WritesAnswer A.answer (R.remaining input.old) (W.contents output.old) (W.contents output.new)) }
    ensures taken { TakesFirst (length buffer.old) result (R.remaining input.old) (R.remaining input.new) }
    ensures part { A.most_written ≤ length text.old
        → WritesPart A.answer (R.remaining input.old) (W.contents output.old) (W.contents output.new) }
{
    let (size, read) = read_full(input, buffer);
    let length = program.put_answer(&buffer[..size], text);
    write_all(output, &text[..length])?;
    read
}

#[cfg(test)]
mod tests {
    use super::*;

    // Gives one byte a read, and fails where none is left.
    #[derive(Drop)]
    struct Drip {
        next: u8,
        end: u8,
    }

    impl Read for Drip {
        fn read(&mut self, buffer: &mut [u8]) -> io::Result<usize> {
            if self.next >= self.end {
                return Err(io::Error::from(ErrorKind::ConnectionReset));
            }
            if buffer.is_empty() {
                return Ok(0);
            }
            buffer[0] = self.next;
            self.next += 1;
            Ok(1)
        }
    }

    // Takes one byte a write, and fails, or takes nothing, where it is full.
    #[derive(Drop)]
    struct Narrow {
        taken: [u8; 6],
        length: usize,
        fails: bool,
    }

    impl Write for Narrow {
        fn write(&mut self, bytes: &[u8]) -> io::Result<usize> {
            if self.length >= 6 && self.fails {
                return Err(io::Error::from(ErrorKind::StorageFull));
            }
            if self.length >= 6 || bytes.is_empty() {
                return Ok(0);
            }
            self.taken[self.length] = bytes[0];
            self.length += 1;
            Ok(1)
        }

        fn flush(&mut self) -> io::Result<()> {
            Ok(())
        }
    }

    #[test]
    fn a_full_buffer_ends_the_reading(rt: HostRuntime) {
        let mut buffer = [9u8; 3];
        let (size, read) = read_full(&mut Drip { next: 1, end: 6 }, &mut buffer);
        assert!(rt; read.is_ok());
        assert_eq!(rt; size, 3);
        assert_eq!(rt; buffer, [1, 2, 3]);
    }

    #[test]
    fn the_end_of_the_input_ends_the_reading(rt: HostRuntime) {
        let mut buffer = [9u8; 6];
        let mut input: &[u8] = &[1, 2, 3, 4];
        let (size, read) = read_full(&mut input, &mut buffer);
        assert!(rt; read.is_ok());
        assert_eq!(rt; size, 4);
        assert_eq!(rt; buffer, [1, 2, 3, 4, 9, 9]);
    }

    #[test]
    fn a_failed_read_leaves_what_was_read(rt: HostRuntime) {
        let mut buffer = [9u8; 6];
        let (size, read) = read_full(&mut Drip { next: 1, end: 5 }, &mut buffer);
        assert_eq!(rt; size, 4);
        assert_eq!(rt; buffer, [1, 2, 3, 4, 9, 9]);
        let kind = match read {
            Ok(()) => ErrorKind::Other,
            Err(e) => e.kind(),
        };
        assert_eq!(rt; kind, ErrorKind::ConnectionReset);
    }

    // The error, if any, and what an output of six bytes has then.
    fn written(bytes: &[u8], fails: bool) -> (Option<ErrorKind>, [u8; 6]) {
        let mut output = Narrow {
            taken: [9; 6],
            length: 0,
            fails,
        };
        let kind = match write_all(&mut output, bytes) {
            Ok(()) => None,
            Err(e) => Some(e.kind()),
        };
        (kind, output.taken)
    }

    #[test]
    fn all_bytes_are_written(rt: HostRuntime) {
        assert_eq!(rt;
            written(&[1, 2, 3, 4, 5], false),
            (None, [1, 2, 3, 4, 5, 9])
        );
    }

    #[test]
    fn an_output_that_takes_nothing_ends_the_writing(rt: HostRuntime) {
        let expected = (Some(ErrorKind::WriteZero), [1, 2, 3, 4, 5, 6]);
        assert_eq!(rt; written(&[1, 2, 3, 4, 5, 6, 7], false), expected);
    }

    #[test]
    fn a_failed_write_ends_the_writing(rt: HostRuntime) {
        let expected = (Some(ErrorKind::StorageFull), [1, 2, 3, 4, 5, 6]);
        assert_eq!(rt; written(&[1, 2, 3, 4, 5, 6, 7], true), expected);
    }
}
