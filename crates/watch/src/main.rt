// The program watch: a plan and a dump from standard input, one line of answer to standard output.
#![tactic(auto)]

ghost use Rattle.std.specs.Prelude.{◌≡◌, IfSome, OnOk};
ghost use Rattle.std.specs.Io.KnownBytes.{Appends};
ghost use Rattle.monitor.specs.Answers.{answer_of};
ghost use Rattle.watch.specs.Printed.{answered, line_of, printed};

use monitor::check::{Refusal, Verdict, check};
use plan::input::plan_length;
use std::io::{Read, Write};
use streams::failure::Failure;
use streams::input::read_input;
use streams::output::write_piece;
use streams::text::{Text, line};

// The plan in front, the dump behind it.
fn answer(input: &[u8]) -> Result<Verdict, Refusal>
    ensures { answer_of result ≡ answered input.now }
{
    let k = plan_length(input);
    check(&input[..k], &input[k..])
}

// The line of an answer. Rules out another word, numbers in another order, and a line without its end.
fn verdict_line(verdict: Result<Verdict, Refusal>) -> Text
    ensures { result.items ≡ line_of (answer_of verdict) }
{
    match verdict {
        Ok(Verdict::Clean { records, due }) => line(b"clean", &[records as u64, due as u64]),
        Ok(Verdict::Breach { record, rule }) => {
            line(b"breach", &[record as u64, rule.number() as u64])
        }
        Err(refusal) => line(b"refused", &[refusal.number() as u64]),
    }
}

// All that is printed of an input.
fn answer_line(input: &[u8]) -> Text
    ensures { result.items ≡ printed input.now }
{
    verdict_line(answer(input))
}

// The whole program, whatever it reads from and writes to: what fills the buffer is answered like the whole input (proofs/Cut.antt).
fn run<R: Read, W: Write>(reader: &mut R, writer: &mut W) -> Result<(), Failure>
    ensures { OnOk result (IfSome (R.remaining reader.old)
        (λ input. Appends (W.contents writer.old) (W.contents writer.new) (printed input))) }
{
    let mut input = [0; 65536];
    let size = read_input(reader, &mut input).map_err(|_| Failure::Read)?;
    let text = answer_line(&input[..size]);
    write_piece(writer, text.as_slice()).map_err(|_| Failure::Write)
}

// A failure is told by a line alone: the exit status stays 0.
fn main(rt: HostRuntime) {
    if let Err(failure) = run(&mut rt.stdin(), &mut rt.stdout()) {
        let mut text = Text::new();
        let _ = writeln!(text, "watch: {failure}");
        let _ = write_piece(&mut rt.stderr(), text.as_slice());
    }
}
