// The program bench: a plan and a call list from standard input, the dump's bytes to standard output; on a refusal nothing there, and one
// line to standard error.
#![tactic(auto)]

ghost use Rattle.std.specs.Prelude.{◌≡◌, [], length, take, replicate, IfSome, IfOk, OnOk, MatchResult};
ghost use Rattle.std.specs.Io.{ReadsAtMost};
ghost use Rattle.std.specs.Io.KnownBytes.{Appends};
ghost use Rattle.kernel.specs.Answers.{answer_of};
ghost use Rattle.bench.specs.Printed.{answered, filled, to_output, to_error, bytes_of};

use kernel::bench::{Refusal, bench};
use plan::input::plan_length;
use std::io::{Read, Write};
use streams::failure::Failure;
use streams::input::read_input;
use streams::output::write_piece;
use streams::text::{Text, line};

// The plan in front, the call list behind it.
fn answer(input: &[u8], out: &mut [u8]) -> Result<usize, Refusal>
    ensures result_value { answer_of result ≡ answered input.now (length out.old) }
    ensures out_after { out.new ≡ filled input.now out.old }
{
    let k = plan_length(input);
    bench(&input[..k], &input[k..], out)
}

// All that is written of an input: so many bytes of the output, or a line for standard error. Rules out a dump cut short, a refusal with
// another word, and one without its end.
fn written(input: &[u8], out: &mut [u8]) -> Result<usize, Text>
    ensures prefix_len { ReadsAtMost result out.new }
    ensures out_after { MatchResult result (λ size. take size out.new ≡ to_output input.now out.old) (λ _. to_output input.now out.old ≡ []) }
    ensures line_after { MatchResult result (λ _. to_error input.now (length out.old) ≡ []) (λ text. text.items ≡ to_error input.now (length out.old)) }
{
    match answer(input, out) {
        Ok(records) => Ok(2 + 3 * records),
        Err(refusal) => Err(line(b"refused", &[refusal.number() as u64])),
    }
}

// The whole program, whatever it reads from and writes to; the line for standard error, where there is one. What fills the buffer is answered
// like the whole input (proofs/Cut.antt), and every dump fits the output (proofs/Room.antt).
fn run<R: Read, W: Write>(reader: &mut R, writer: &mut W) -> Result<Option<Text>, Failure>
    ensures output { OnOk result (IfSome (R.remaining reader.old)
        (λ input. Appends (W.contents writer.old) (W.contents writer.new) (to_output input (replicate 65536 0)))) }
    ensures line { IfOk result (λ line. IfSome (R.remaining reader.old) (λ input. bytes_of line ≡ to_error input 65536)) }
{
    let mut input = [0; 65536];
    let size = read_input(reader, &mut input).map_err(|_| Failure::Read)?;
    let mut out = [0; 65536];
    match written(&input[..size], &mut out) {
        Ok(dump) => {
            write_piece(writer, &out[..dump]).map_err(|_| Failure::Write)?;
            Ok(None)
        }
        Err(text) => Ok(Some(text)),
    }
}

// A failure is told by a line alone: the exit status stays 0.
fn main(rt: HostRuntime) {
    let told = match run(&mut rt.stdin(), &mut rt.stdout()) {
        Ok(line) => line.unwrap_or_default(),
        Err(failure) => {
            let mut text = Text::new();
            let _ = writeln!(text, "bench: {failure}");
            text
        }
    };
    let _ = write_piece(&mut rt.stderr(), told.as_slice());
}
