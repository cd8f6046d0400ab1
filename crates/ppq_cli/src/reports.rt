//! The line that reports an outcome.
ghost use Rattle.std.specs.Prelude.{◌++◌, OnOk, decimal};
ghost use Rattle.ppq_words.specs.ppq_outside.Told.{HasOneCause, TakesAll, TakesPart};
ghost use Rattle.ppq_cli.specs.Report.{report_of, changed_text};

use itoa::Buffer;
use ppq_jobs::End;
use ppq_words::{Failed, Host, Sink};

/// Puts the line that reports an outcome; nothing for `Done`. `Failed` comes only where the sink's
/// count of faults rose, and a prefix of the line was then taken.
pub fn report<H: Host, O: Sink>(rt: &H, end: &End, out: &mut O) -> Result<(), Failed>
    ensures all { OnOk result (TakesAll (O.told out.old) (O.told out.new) (report_of end.now)) }
    ensures part { TakesPart (O.told out.old) (O.told out.new) (report_of end.now) }
    ensures cause { HasOneCause (O.faults out.old) (O.faults out.new) result }
{
    match end {
        End::Done => out.put(rt, b""),
        End::BadLine { line } => put_number(rt, b"ppq: line ", *line as u64, b": bad line\n", out),
        End::Usage => out.put(
            rt,
            b"ppq: usage: ppq run SCRIPT --device FILE --blocks D --workers P --block B --heap H (--memory M | --memory-bytes N) [--form text|bytes]\n",
        ),
        End::ReadFault => out.put(rt, b"ppq: cannot read\n"),
        End::WriteFault => out.put(rt, b"ppq: cannot write\n"),
        End::DeviceFault { number } => {
            put_number(rt, b"ppq: device block ", *number as u64, b" failed\n", out)
        }
        End::NoFreeBlock => out.put(rt, b"ppq: no free block\n"),
        End::BudgetTooSmall { need } => {
            put_number(rt, b"ppq: memory too small, need ", *need, b"\n", out)
        }
        End::Memory => out.put(rt, b"ppq: out of memory\n"),
        End::FileChanged { line, said, got } => put_changed(rt, *line, *said, *got, out),
        End::NoDevice => out.put(rt, b"ppq: cannot make the device\n"),
        End::NoScript => out.put(rt, b"ppq: no such script\n"),
        End::ScriptTooLong => out.put(rt, b"ppq: script too long\n"),
        End::BadAgenda => out.put(rt, b"ppq: bad agenda\n"),
        End::BadEdge { at } => put_number(rt, b"ppq: edge ", *at, b" is bad\n", out),
    }
}

// Puts the line of a file that changed.
fn put_changed<H: Host, O: Sink>(
    rt: &H,
    line: u32,
    said: u64,
    got: u64,
    out: &mut O,
) -> Result<(), Failed>
    ensures all { OnOk result (TakesAll (O.told out.old) (O.told out.new) (changed_text line said got)) }
    ensures part { TakesPart (O.told out.old) (O.told out.new) (changed_text line said got) }
    ensures cause { HasOneCause (O.faults out.old) (O.faults out.new) result }
{
    put_number(
        rt,
        b"ppq: line ",
        line as u64,
        b": file changed, said ",
        out,
    )?;
    put_number(rt, b"", said, b", got ", out)?;
    put_number(rt, b"", got, b"\n", out)
}

// Puts a number in decimal between two texts.
fn put_number<H: Host, O: Sink>(
    rt: &H,
    before: &[u8],
    number: u64,
    behind: &[u8],
    out: &mut O,
) -> Result<(), Failed>
    ensures all { OnOk result (TakesAll (O.told out.old) (O.told out.new) (before.now ++ decimal number ++ behind.now)) }
    ensures part { TakesPart (O.told out.old) (O.told out.new) (before.now ++ decimal number ++ behind.now) }
    ensures cause { HasOneCause (O.faults out.old) (O.faults out.new) result }
{
    out.put(rt, before)?;
    let mut digits = Buffer::new();
    out.put(rt, digits.format(number).as_bytes())?;
    out.put(rt, behind)
}
