//! Executes a bulk session of a script.
ghost use Rattle.std.specs.Prelude.{◌≡◌, All};
ghost use Rattle.ppq_script.specs.Parts.{AreLines, bulk_part, commands_of};
ghost use Rattle.ppq_script.specs.declared.command.Command.TheVariants.{BulkBegin};
ghost use Rattle.ppq_script.specs.declared.session.Session.TheVariants.{InBulk};
ghost use Rattle.ppq_load.specs.ppq_session.Dealing.{IsGoing};
ghost use Rattle.ppq_engine.specs.Calls.{GoesAlone};
ghost use Rattle.ppq_engine.specs.Limits.{session_end};
ghost use Rattle.ppq_engine.specs.Pushes.{GivesLines};

use crate::batch::cut;
use crate::collected::Collected;
use crate::machine::Machine;
use crate::stop::Stop;
use crate::world::World;
use ppq_load::{QueueFault, Session};
use ppq_record::record_laws;
use ppq_script::{Failed, Fields, Gate, Host, Numbered, Slot};

// Gives the records of lines to the passes, in batches, until one stops.
fn push_all<H: Host, S: Slot + Send + Sync, R: Fields + Send + Sync, G: Gate>(
    world: &World<'_, H, G>,
    session: &mut Session<S, R>,
    lines: &[Numbered<R>],
    batch: &mut Collected<R>,
)
where
    H::Dir: Send,
    requires lines { AreLines R.Fields session.old.bulk.sizes.workers InBulk (commands_of lines.now) }
    requires going { All IsGoing session.old.passes }
    ensures { GivesLines S.shown (commands_of lines.now) session.old session.new }
{
    let mut rest = lines;
    'batches: while !rest.is_empty() {
        let (first, behind) = cut(rest, batch.most);
        batch.fill(first);
        if !session.push(world.rt, batch.items.as_slice(), world.gate) {
            return;
        }
        rest = behind;
    }
}

// How a session ended: the sink stopped it, or the queue did, or nothing.
pub fn ended(printed: Result<(), Failed>, over: Result<(), QueueFault>) -> Result<(), Stop>
    ensures { result ≡ session_end printed over }
{
    match (printed, over) {
        (Err(Failed), _) => Err(Stop::Sink),
        (Ok(()), Err(fault)) => Err(Stop::Queue { fault }),
        (Ok(()), Ok(())) => Ok(()),
    }
}

impl<S: Slot + Send + Sync, R: Fields + Send + Sync> Machine<S, R> {
    // Runs a bulk session with these lines: they go to the passes in batches of at most as many as a round
    // has records, and the queue has their records at the end. It returns the machine.
    pub(crate) fn run_bulk<H: Host, G: Gate>(
        self,
        world: &World<'_, H, G>,
        lines: &[Numbered<R>],
    ) -> (Machine<S, R>, Result<(), Stop>)
    where
        H::Dir: Send,
        requires lines { AreLines R.Fields self.queue.sizes.workers InBulk (commands_of lines.now) }
        ensures { GoesAlone R.Fields BulkBegin (bulk_part (commands_of lines.now)) self.queue result.0.queue self.desk.gathered result.0.desk.gathered result.1 }
    {
        record_laws::<R>();
        let Machine { queue, desk } = self;
        queue.known();
        let Ok(mut batch) = Collected::new(world.alloc, desk.list.room()) else {
            return (Machine { queue, desk }, Err(Stop::Memory));
        };
        match Session::begin(world.rt, world.alloc, queue, world.gate) {
            Ok(mut session) => {
                push_all(world, &mut session, lines, &mut batch);
                let (queue, over) = session.end(world.rt, world.gate);
                (Machine { queue, desk }, ended(Ok(()), over))
            }
            Err((queue, fault)) => (Machine { queue, desk }, Err(Stop::from(fault))),
        }
    }
}
