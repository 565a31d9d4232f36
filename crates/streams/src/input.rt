// Standard input, or what else can be read, as far as a buffer holds it.
ghost use Rattle.std.specs.Prelude.{◌≡◌, IfOk, IfSome, length, take};
ghost use Rattle.std.specs.Io.{ReadsAtMost};
ghost use Rattle.std.specs.Io.KnownBytes.{Consumes};
ghost use Rattle.streams.specs.Input.{meaning_of};

use std::io::{Read, Result};

// How many bytes a read moved, none where it found the end of the input. Rules out a failure that is taken for the end or for bytes, and the
// other way round.
fn meaning(got: Result<usize>) -> Result<Option<usize>>
    ensures { result ≡ meaning_of got }
{
    match got {
        Ok(0) => Ok(None),
        Ok(n) => Ok(Some(n)),
        Err(e) => Err(e),
    }
}

// Until the input ends or the buffer is full; how many bytes of it stand at the buffer's front. Where a read fails, nothing is told of what was
// read before. A loop of its own: std's `read_to_end` wants a heap, and `read_exact` does not say how far an input came that ends early.
pub fn read_input<R: Read>(reader: &mut R, buf: &mut [u8]) -> Result<usize>
    ensures prefix_len { ReadsAtMost result buf.new }
    ensures bytes { IfOk result (λ n. IfSome (R.remaining reader.old) (λ input. take n buf.new ≡ take (length buf.new) input)) }
    ensures rest { IfOk result (λ n. Consumes (R.remaining reader.old) (R.remaining reader.new) (take n buf.new)) }
{
    let mut done = 0;
    while done < buf.len() {
        match meaning(reader.read(&mut buf[done..]))? {
            None => break,
            Some(n) => done += n,
        }
    }
    Ok(done)
}
