// What is written, to standard output or whatever else takes bytes.
ghost use Rattle.std.specs.Prelude.{OnOk};
ghost use Rattle.std.specs.Io.KnownBytes.{Appends};

use std::io::{Error, ErrorKind, Result, Write};

// All of a piece, or a failure: the first write that fails or takes nothing ends it. A loop of its own: std's `write_all` tries a write that a signal
// interrupted again, and so without an end where each one is interrupted.
pub fn write_piece<W: Write>(writer: &mut W, piece: &[u8]) -> Result<()>
    ensures { OnOk result (Appends (W.contents writer.old) (W.contents writer.new) piece.now) }
{
    let mut rest = piece;
    while !rest.is_empty() {
        match writer.write(rest)? {
            0 => return Err(Error::from(ErrorKind::WriteZero)),
            n => rest = &rest[n..],
        }
    }
    Ok(())
}

#[cfg(test)]
mod tests {
    use super::write_piece;
    use std::io::{Error, ErrorKind, Result, Write};
    use std::test::Fail;

    const PIECE: &[u8] = b"clean 17 0\n";

    // Its calls in turn: each takes so many bytes at most, or None is interrupted by a signal. What is left of them nobody made.
    #[derive(Drop)]
    struct Slow<'a> {
        calls: &'a [Option<usize>],
        taken: Vec<u8>,
    }

    impl Write for Slow<'_> {
        fn write(&mut self, buf: &[u8]) -> Result<usize> {
            let Some((call, left)) = self.calls.split_first() else {
                return Err(Error::from(ErrorKind::Other));
            };
            self.calls = left;
            let Some(most) = *call else {
                return Err(Error::from(ErrorKind::Interrupted));
            };
            let count = buf.len().min(most);
            self.taken.extend_from_slice(&buf[..count])?;
            Ok(count)
        }

        fn flush(&mut self) -> Result<()> {
            Ok(())
        }
    }

    // What ended it, if anything did, what stands written, and the number of calls that nobody made.
    fn written(
        rt: &HostRuntime,
        piece: &[u8],
        calls: &[Option<usize>],
    ) -> (Option<ErrorKind>, Vec<u8>, usize) {
        let mut writer = Slow {
            calls,
            taken: Vec::new(rt.alloc()),
        };
        let ended = write_piece(&mut writer, piece).err().map(|e| e.kind());
        let Slow { calls, taken } = writer;
        (ended, taken, calls.len())
    }

    #[test]
    fn a_piece_is_written_whole(rt: HostRuntime) {
        let (ended, taken, left) = written(&rt, PIECE, &[Some(3); 5]);
        assert_eq!(rt; (ended, taken.as_slice(), left), (None, PIECE, 1));
        let (ended, taken, left) = written(&rt, b"", &[Some(3)]);
        assert_eq!(rt; (ended, taken.len(), left), (None, 0, 1), "an empty piece");
    }

    #[test]
    fn the_first_write_that_fails_or_takes_nothing_ends_it(rt: HostRuntime) {
        let cases: [(&[Option<usize>], ErrorKind, usize); 4] = [
            (&[None, Some(11)], ErrorKind::Interrupted, 0),
            (
                &[Some(3), Some(3), None, Some(11)],
                ErrorKind::Interrupted,
                6,
            ),
            (&[Some(0), Some(11)], ErrorKind::WriteZero, 0),
            (&[Some(3), Some(0), Some(11)], ErrorKind::WriteZero, 3),
        ];
        for (calls, why, count) in cases {
            let (ended, taken, left) = written(&rt, PIECE, calls);
            assert_eq!(rt; ended, Some(why));
            assert!(rt; PIECE.starts_with(&taken) && taken.len() == count);
            assert_eq!(rt; left, 1);
        }
    }
}
