//! The lines of the journal.
ghost use Rattle.std.specs.Prelude.{◌≡◌, ◌≤◌, ◌+◌, ◌++◌, length, codes, decimal};
ghost use Rattle.ppq_text.specs.Gathering.{GathersNext};
ghost use Rattle.ppq_handler.specs.Agenda.{entry, entry_text, ending_text, reply_of, reply_text};

use ppq_handler::{Ending, Outcome, Triple};
use ppq_text::{Failed, Gathered, Host, OnHeap, Sink};

// How many bytes a line has at most: four numbers of at most 20 digits, three spaces and the line's end.
const LINE: usize = 84;

// Gathers the reply of an answer.
fn add_reply(answer: Option<Outcome>, lines: &mut Gathered<OnHeap>)
    requires { length lines.old + 20 ≤ 65536 }
    ensures text { lines.new ≡ lines.old ++ reply_text (reply_of answer) }
    ensures length { length lines.new ≤ length lines.old + 20 }
{
    match answer {
        Some(outcome) => lines.number(outcome.reply),
        None => lines.text(b"lost"),
    }
}

// Gathers the line of an event, for which there is room.
fn add_entry(event: Triple, answer: Option<Outcome>, lines: &mut Gathered<OnHeap>)
    requires { length lines.old + 84 ≤ 65536 }
    ensures { lines.new ≡ lines.old ++ entry_text (entry event answer) }
{
    lines.number(event.time);
    lines.text(b" ");
    lines.number(event.target);
    lines.text(b" ");
    lines.number(event.word);
    lines.text(b" ");
    add_reply(answer, lines);
    lines.text(b"\n");
}

// Gathers the line of an event.
#[tactic(auto, using(crate::proofs::Gathered::next_text))]
pub(crate) fn put_entry<H: Host, O: Sink>(
    rt: &H,
    event: Triple,
    answer: Option<Outcome>,
    lines: &mut Gathered<OnHeap>,
    out: &mut O,
) -> Result<(), Failed>
    ensures { GathersNext (O.told out.old) (O.told out.new) (O.faults out.old) (O.faults out.new) lines.old (entry_text (entry event answer)) lines.new result }
{
    lines.make_room(rt, LINE, out)?;
    add_entry(event, answer, lines);
    Ok(())
}

// Gathers a line of a text and a number.
fn add_line(text: &[u8], number: u64, lines: &mut Gathered<OnHeap>)
    requires text { length text.now ≤ 20 }
    requires room { length lines.old + 84 ≤ 65536 }
    ensures { lines.new ≡ lines.old ++ (text.now ++ (decimal number ++ codes "\n")) }
{
    lines.text(text);
    lines.number(number);
    lines.text(b"\n");
}

// Gathers the line of an ending, for which there is room.
fn add_ending(ending: Ending, lines: &mut Gathered<OnHeap>)
    requires { length lines.old + 84 ≤ 65536 }
    ensures { lines.new ≡ lines.old ++ ending_text ending }
{
    match ending {
        Ending::Empty { count } => add_line(b"end empty count ", count, lines),
        Ending::Until { count } => add_line(b"end until count ", count, lines),
        Ending::Full { count } => add_line(b"end full count ", count, lines),
    }
}

// Gathers the line of an ending.
#[tactic(auto, using(crate::proofs::Gathered::next_text))]
pub(crate) fn put_ending<H: Host, O: Sink>(
    rt: &H,
    ending: Ending,
    lines: &mut Gathered<OnHeap>,
    out: &mut O,
) -> Result<(), Failed>
    ensures { GathersNext (O.told out.old) (O.told out.new) (O.faults out.old) (O.faults out.new) lines.old (ending_text ending) lines.new result }
{
    lines.make_room(rt, LINE, out)?;
    add_ending(ending, lines);
    Ok(())
}
