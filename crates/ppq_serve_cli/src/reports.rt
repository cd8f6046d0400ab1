//! The line that reports an outcome.
ghost use Rattle.std.specs.Prelude.{◌++◌, OnOk, decimal};
ghost use Rattle.ppq_answer.specs.ppq_frames.ppq_outside.Told.{HasOneCause, TakesAll, TakesPart};
ghost use Rattle.ppq_serve_cli.specs.Report.{end_line, line_of};

use itoa::Buffer;
use ppq_answer::{End, Outcome};
use ppq_words::{Failed, Host, Sink};

/// Puts the line that reports an outcome; nothing for `Done`. `Failed` comes only where the sink's count of faults
/// rose, and a prefix of the line was then taken.
pub fn report<H: Host, O: Sink>(rt: &H, outcome: &Outcome, out: &mut O) -> Result<(), Failed>
    ensures all { OnOk result (TakesAll (O.told out.old) (O.told out.new) (line_of outcome.now)) }
    ensures part { TakesPart (O.told out.old) (O.told out.new) (line_of outcome.now) }
    ensures cause { HasOneCause (O.faults out.old) (O.faults out.new) result }
{
    match outcome {
        Outcome::BadRequest { number } => {
            put_number(rt, b"ppq-serve: request ", *number, b": bad request\n", out)
        }
        Outcome::Ended { end } => report_end(rt, end, out),
    }
}

// Puts the line of an end.
fn report_end<H: Host, O: Sink>(rt: &H, end: &End, out: &mut O) -> Result<(), Failed>
    ensures all { OnOk result (TakesAll (O.told out.old) (O.told out.new) (end_line end.now)) }
    ensures part { TakesPart (O.told out.old) (O.told out.new) (end_line end.now) }
    ensures cause { HasOneCause (O.faults out.old) (O.faults out.new) result }
{
    match end {
        End::Done => out.put(rt, b""),
        End::Usage => out.put(
            rt,
            b"ppq-serve: usage: ppq-serve --device FILE --blocks D --workers P --block B --heap H (--memory M | --memory-bytes N)\n",
        ),
        End::ReadFault => out.put(rt, b"ppq-serve: cannot read\n"),
        End::WriteFault => out.put(rt, b"ppq-serve: cannot write\n"),
        End::DeviceFault { number } => put_number(
            rt,
            b"ppq-serve: device block ",
            *number as u64,
            b" failed\n",
            out,
        ),
        End::NoFreeBlock => out.put(rt, b"ppq-serve: no free block\n"),
        End::BudgetTooSmall { need } => {
            put_number(rt, b"ppq-serve: memory too small, need ", *need, b"\n", out)
        }
        End::Memory => out.put(rt, b"ppq-serve: out of memory\n"),
        End::NoDevice => out.put(rt, b"ppq-serve: cannot make the device\n"),
        End::BadLine { .. } => out.put(rt, b"ppq-serve: failed\n"),
        End::FileChanged { .. } => out.put(rt, b"ppq-serve: failed\n"),
        End::NoScript => out.put(rt, b"ppq-serve: failed\n"),
        End::ScriptTooLong => out.put(rt, b"ppq-serve: failed\n"),
        End::BadAgenda => out.put(rt, b"ppq-serve: failed\n"),
        End::BadEdge { .. } => out.put(rt, b"ppq-serve: failed\n"),
    }
}

// Puts a number in decimal between two texts.
fn put_number<H: Host, O: Sink>(
    rt: &H,
    before: &[u8],
    number: u64,
    behind: &[u8],
    out: &mut O,
) -> Result<(), Failed>
    ensures all { OnOk result (TakesAll (O.told out.old) (O.told out.new) (before.now ++ decimal number ++ behind.now)) }
    ensures part { TakesPart (O.told out.old) (O.told out.new) (before.now ++ decimal number ++ behind.now) }
    ensures cause { HasOneCause (O.faults out.old) (O.faults out.new) result }
{
    out.put(rt, before)?;
    let mut digits = Buffer::new();
    out.put(rt, digits.format(number).as_bytes())?;
    out.put(rt, behind)
}
