//! Executes a limit session of a script.
ghost use Rattle.std.specs.Prelude.{List, ℕ, Option, OnOk, OnErr, IfErr};
ghost use Rattle.ppq_script.specs.ppq_outside.Told.{HasOneCause};
ghost use Rattle.ppq_script.specs.Parts.{AreLines, limit_part, commands_of};
ghost use Rattle.ppq_script.specs.Reading.{Reading};
ghost use Rattle.ppq_script.specs.declared.command.Command.TheVariants.{LimitBegin};
ghost use Rattle.ppq_script.specs.declared.session.Session.TheVariants.{InLimit};
ghost use Rattle.ppq_load.specs.ppq_session.LimitSessions.{AreGoing};
ghost use Rattle.ppq_engine.specs.Calls.{Goes, SinkCounts};
ghost use Rattle.ppq_engine.specs.Limits.{RunsLines, BreaksOff};
ghost use Rattle.ppq_engine.specs.Popping.{IsByLimit};

use crate::batch::{Batch, cut};
use crate::machine::Machine;
use crate::session::ended;
use crate::stop::Stop;
use crate::world::World;
use ppq_load::LimitSession;
use ppq_record::record_laws;
use ppq_script::{Failed, Fields, Gate, Host, Numbered, Sink, Slot};
use ppq_text::{Gathered, OnHeap};

// Runs lines of a session in batches, and prints what each batch answered, up to the first batch in which
// a pass or the front stopped.
fn run_lines<H: Host, S: Slot + Send + Sync, R: Fields + Send + Sync, O: Sink, G: Gate>(
    world: &World<'_, H, G>,
    session: &mut LimitSession<S, R>,
    lines: &[Numbered<R>],
    batch: &mut Batch<R>,
    gathered: &mut Gathered<OnHeap>,
    out: &mut O,
) -> Result<(), Failed>
where
    H::Dir: Send,
    requires lines { AreLines R.Fields session.old.front.sizes.workers (InLimit session.old.front.limit) (commands_of lines.now) }
    requires going { AreGoing session.old }
    ensures ran { OnOk result (RunsLines R.Fields S.shown world.now.form (commands_of lines.now) (O.told out.old) (O.told out.new) gathered.old gathered.new session.old session.new) }
    ensures broken { OnErr result (BreaksOff R.Fields S.shown world.now.form (commands_of lines.now) (O.told out.old) (O.told out.new) gathered.old session.old session.new) }
    ensures cause { HasOneCause (O.faults out.old) (O.faults out.new) result }
{
    let mut rest = lines;
    'batches: while !rest.is_empty() {
        let (first, behind) = cut(rest, batch.lines.most);
        let all = batch.run(world.rt, session, first, world.gate);
        batch.print(world.rt, world.form, gathered, out)?;
        if !all {
            return Ok(());
        }
        rest = behind;
    }
    Ok(())
}

impl<S: Slot + Send + Sync, R: Fields + Send + Sync> Machine<S, R> {
    // Runs a limit session with this limit and these lines: they are run in batches of at most as many as a
    // round has records, in which the front answers its lines beside the passes, and the answers are printed
    // in the order of lines. The queue has the passes' records at the end. It returns the machine.
    pub(crate) fn run_limit<H: Host, O: Sink, G: Gate>(
        self,
        world: &World<'_, H, G>,
        limit: R,
        lines: &[Numbered<R>],
        out: &mut O,
    ) -> (Machine<S, R>, Result<(), Stop>)
    where
        H::Dir: Send,
        requires lines { AreLines R.Fields self.queue.sizes.workers (InLimit limit) (commands_of lines.now) }
        ensures goes { (files : Option (List ℕ → Option (List ℕ))) (script : Reading R) → Goes R.Fields world.now.form files script (LimitBegin limit) (limit_part limit (commands_of lines.now)) (O.told out.old) (O.told out.new) self.queue result.0.queue self.desk.gathered result.0.desk.gathered result.1 }
        ensures by_limit { IfErr result.1 IsByLimit }
        ensures sink { SinkCounts (O.faults out.old) (O.faults out.new) result.1 }
    {
        record_laws::<R>();
        let Machine { queue, desk } = self;
        queue.known();
        let Ok(mut batch) = Batch::new(world.alloc, desk.list.room()) else {
            return (Machine { queue, desk }, Err(Stop::Memory));
        };
        match LimitSession::begin(world.rt, world.alloc, queue, limit, world.gate) {
            Ok(mut session) => {
                let mut desk = desk;
                let gathered = &mut desk.gathered;
                let printed = run_lines(world, &mut session, lines, &mut batch, gathered, out);
                let (queue, over) = session.end(world.rt, world.gate);
                (Machine { queue, desk }, ended(printed, over))
            }
            Err((queue, fault)) => (Machine { queue, desk }, Err(Stop::from(fault))),
        }
    }
}
