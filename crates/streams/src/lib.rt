// Reading a stream.

#![tactic(auto)]

ghost use Rattle.std.specs.Prelude.{ℕ, ◌<◌, IfOk, OnErr, length, take};
ghost use Rattle.std.specs.Io.{ReadsAtMost};
ghost use Rattle.std.specs.Io.KnownBytes.{Consumes, IsAtEnd};

use std::io;
use std::io::Read;

// Reads until a buffer is full or the input ends, and gives how many bytes of the buffer are read. It asks for no byte past the buffer.
pub fn read_full<R: Read>(reader: &mut R, buffer: &mut [u8]) -> io::Result<usize>
    ensures bound { ReadsAtMost result buffer.new }
    ensures bytes { IfOk result (λ n. Consumes (R.remaining reader.old) (R.remaining reader.new) (take n buffer.new)) }
    ensures end { IfOk result (λ n. n < length buffer.new → IsAtEnd (R.remaining reader.new)) }
    ensures err { OnErr result ((n : ℕ) × (n < length buffer.new) × Consumes (R.remaining reader.old) (R.remaining reader.new) (take n buffer.new)) }
{
    let mut done = 0;
    while done < buffer.len() {
        let read = reader.read(&mut buffer[done..])?;
        if read == 0 {
            break;
        }
        done += read;
    }
    Ok(done)
}

#[cfg(test)]
mod tests {
    use super::*;

    // Gives the numbers from 1 on, one at each read, up to the last, and then the end, or fails.
    #[derive(Drop)]
    struct Counter {
        given: u8,
        last: u8,
        fails: bool,
    }

    impl Read for Counter {
        fn read(&mut self, buffer: &mut [u8]) -> io::Result<usize> {
            if buffer.is_empty() {
                return Ok(0);
            }
            if self.given >= self.last {
                if self.fails {
                    return Err(io::Error::other("no more"));
                }
                return Ok(0);
            }
            self.given += 1;
            buffer[0] = self.given;
            Ok(1)
        }
    }

    #[test]
    fn reads_piece_by_piece(rt: HostRuntime) {
        for (last, fails, want) in [(5, false, 3u8), (3, true, 3), (2, false, 2), (0, false, 0)] {
            let mut counter = Counter {
                given: 0,
                last,
                fails,
            };
            let mut buffer = [0u8; 3];
            let read = read_full(&mut counter, &mut buffer);
            assert!(rt; read.is_ok_and(|n| n == usize::from(want)), "up to {last}");
            assert_eq!(rt; counter.given, want, "up to {last}");
        }
    }

    #[test]
    fn a_failed_read_is_told(rt: HostRuntime) {
        let mut counter = Counter {
            given: 0,
            last: 2,
            fails: true,
        };
        let mut buffer = [0u8; 3];
        assert!(rt; read_full(&mut counter, &mut buffer).is_err());
        assert_eq!(rt; buffer, [1, 2, 0]);
    }
}
