// An input read into a lent buffer: a line, as soon as its end has come, or all of it. Inner: callers meet each `requires`.
#![tactic(auto)]

ghost use Rattle.std.specs.Prelude.{ℕ, ◌≡◌, ◌+◌, ◌<◌, ◌≤◌, true, false, length, take, drop, IfOk, OnErr};
ghost use Rattle.std.specs.Io.KnownBytes.{Consumes, Keeps, IsAtEnd};
ghost use Rattle.scan.specs.Scan.{any};
ghost use Rattle.line.specs.Text.{most_bytes};
ghost use Rattle.input.specs.Says.{is_end, Came, CameAll};

use std::io;
use std::io::Read;

// How many bytes came, and whether the input has ended: the last read gave none.
#[derive(Clone, Copy)]
pub struct Input {
    pub bytes: usize,
    pub ended: bool,
}

// Reads once into what a buffer has behind its first n bytes, and answers how many bytes came: 0 at the end of the input. A read that fails takes
// nothing from the reader.
fn read_some<R: Read>(from: &mut R, buf: &mut [u8], n: usize) -> io::Result<usize>
    requires { n < length buf.old }
    ensures within { IfOk result (λ got. n + got ≤ length buf.new) }
    ensures bytes { IfOk result (λ got. Consumes (R.remaining from.old) (R.remaining from.new) (take got (drop n buf.new))) }
    ensures end { IfOk result (λ got. got ≡ 0 → IsAtEnd (R.remaining from.new)) }
    ensures before { take n buf.new ≡ take n buf.old }
    ensures kept { length buf.new ≡ length buf.old }
    ensures err { OnErr result (Keeps (R.remaining from.old) (R.remaining from.new)) }
{
    from.read(&mut buf[n..])
}

// Reads until a line end has come, the room of a line is full or the input ends. What came is what the reader had. A read fails only while there is room
// and no line end has come: what had come before it is what the reader lost.
pub fn read_line<R: Read>(from: &mut R, buf: &mut [u8]) -> io::Result<Input>
    requires { length buf.old ≡ most_bytes }
    ensures came { IfOk result (λ i. Came buf.new i.bytes i.ended) }
    ensures bytes { IfOk result (λ i. Consumes (R.remaining from.old) (R.remaining from.new) (take i.bytes buf.new)) }
    ensures end { IfOk result (λ i. i.ended ≡ true → IsAtEnd (R.remaining from.new)) }
    ensures kept { length buf.new ≡ length buf.old }
    ensures err { OnErr result ((k : ℕ) × (k < length buf.new) × (any (is_end buf.new) 0 k ≡ false) × Consumes (R.remaining from.old) (R.remaining from.new) (take k buf.new)) }
{
    let mut n: usize = 0;
    while n < buf.len() {
        let got = read_some(from, buf, n)?;
        if got == 0 {
            return Ok(Input {
                bytes: n,
                ended: true,
            });
        }
        n += got;
        if buf[..n].contains(&b'\n') {
            return Ok(Input {
                bytes: n,
                ended: false,
            });
        }
    }
    Ok(Input {
        bytes: n,
        ended: false,
    })
}

// Stays: beside `read_line`, since one function over a test of what came would have to say in every clause what the test answered.
// Reads until the input ends or the room is full. What came is what the reader had. A read fails only while there is room: what had come before it is what the
// reader lost.
pub fn read_all<R: Read>(from: &mut R, buf: &mut [u8]) -> io::Result<Input>
    ensures came { IfOk result (λ i. CameAll buf.new i.bytes i.ended) }
    ensures bytes { IfOk result (λ i. Consumes (R.remaining from.old) (R.remaining from.new) (take i.bytes buf.new)) }
    ensures end { IfOk result (λ i. i.ended ≡ true → IsAtEnd (R.remaining from.new)) }
    ensures kept { length buf.new ≡ length buf.old }
    ensures err { OnErr result ((k : ℕ) × (k < length buf.new) × Consumes (R.remaining from.old) (R.remaining from.new) (take k buf.new)) }
{
    let mut n: usize = 0;
    while n < buf.len() {
        let got = read_some(from, buf, n)?;
        if got == 0 {
            return Ok(Input {
                bytes: n,
                ended: true,
            });
        }
        n += got;
    }
    Ok(Input {
        bytes: n,
        ended: false,
    })
}

#[cfg(test)]
mod tests {
    use super::*;
    use std::io::{Error, ErrorKind};

    // Gives a text a byte at a time, and fails at one place of it.
    #[derive(Drop)]
    struct Bytewise<'a> {
        text: &'a [u8],
        at: usize,
        fails_at: usize,
    }

    impl Read for Bytewise<'_> {
        fn read(&mut self, buf: &mut [u8]) -> io::Result<usize> {
            if self.at == self.fails_at {
                return Err(Error::from(ErrorKind::Other));
            }
            if self.text.len() <= self.at || buf.is_empty() {
                return Ok(0);
            }
            buf[0] = self.text[self.at];
            self.at += 1;
            Ok(1)
        }
    }

    fn slowly(text: &[u8], fails_at: usize) -> Bytewise<'_> {
        Bytewise {
            text,
            at: 0,
            fails_at,
        }
    }

    #[test]
    fn a_line_is_read_as_far_as_its_end(rt: HostRuntime) -> io::Result<()> {
        let mut from = slowly(b"ab\ncd\n", 6);
        let mut buf = [7u8; line::MOST_BYTES];
        let came = read_line(&mut from, &mut buf)?;
        assert!(rt; came.bytes == 3 && !came.ended);
        assert!(rt; buf[0] == b'a' && buf[1] == b'b' && buf[2] == b'\n' && buf[3] == 7);
        assert!(rt; from.at == 3);
        Ok(())
    }

    #[test]
    fn an_input_with_no_line_end_is_read_to_its_end(rt: HostRuntime) -> io::Result<()> {
        let mut buf = [7u8; line::MOST_BYTES];
        let came = read_line(&mut slowly(b"ab", 3), &mut buf)?;
        assert!(rt; came.bytes == 2 && came.ended);
        Ok(())
    }

    #[test]
    fn all_of_an_input_is_read_or_what_there_is_room_for(rt: HostRuntime) -> io::Result<()> {
        let mut buf = [7u8; 4];
        let came = read_all(&mut slowly(b"a\nb", 9), &mut buf)?;
        assert!(rt; came.bytes == 3 && came.ended);
        let came = read_all(&mut slowly(b"a\nb\nc", 9), &mut buf)?;
        assert!(rt; came.bytes == 4 && !came.ended);
        Ok(())
    }

    #[test]
    fn a_read_that_fails_in_mid_line_is_an_error(rt: HostRuntime) {
        let mut buf = [7u8; line::MOST_BYTES];
        assert!(rt; read_line(&mut slowly(b"ab\n", 2), &mut buf).is_err());
        assert!(rt; read_all(&mut slowly(b"ab\n", 2), &mut buf).is_err());
    }

    #[test]
    fn a_read_that_fails_leaves_what_had_come(rt: HostRuntime) {
        let mut from = slowly(b"ab\n", 2);
        let mut buf = [7u8; line::MOST_BYTES];
        assert!(rt; read_line(&mut from, &mut buf).is_err());
        assert!(rt; from.at == 2 && buf[0] == b'a' && buf[1] == b'b' && buf[2] == 7);
        let mut from = slowly(b"ab\n", 2);
        let mut all = [7u8; 3];
        assert!(rt; read_all(&mut from, &mut all).is_err());
        assert!(rt; from.at == 2 && all[0] == b'a' && all[1] == b'b' && all[2] == 7);
    }
}
