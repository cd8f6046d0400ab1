//! The lines of a sweep.
ghost use Rattle.std.specs.Prelude.{◌≡◌, ◌≤◌, ◌+◌, ◌++◌, length};
ghost use Rattle.ppq_text.specs.Gathering.{GathersNext};
ghost use Rattle.ppq_sweep.specs.Levels.{line_of};

use ppq_text::{Failed, Gathered, Host, InPlace, Sink};

// How many bytes a line has at most: two numbers of at most 20 digits, a space and the line's end.
const LINE: usize = 42;

// Gathers the line of a node, for which there is room.
fn add_line(node: u64, level: u64, lines: &mut Gathered<InPlace>)
    requires { length lines.old + 42 ≤ 4096 }
    ensures { lines.new ≡ lines.old ++ line_of node level }
{
    lines.number(node);
    lines.text(b" ");
    lines.number(level);
    lines.text(b"\n");
}

// Gathers the line of a node.
#[tactic(auto, using(crate::proofs::Gathered::next_text))]
pub(crate) fn put_line<H: Host, O: Sink>(
    rt: &H,
    node: u64,
    level: u64,
    lines: &mut Gathered<InPlace>,
    out: &mut O,
) -> Result<(), Failed>
    ensures { GathersNext (O.told out.old) (O.told out.new) (O.faults out.old) (O.faults out.new) lines.old (line_of node level) lines.new result }
{
    lines.make_room(rt, LINE, out)?;
    add_line(node, level, lines);
    Ok(())
}
