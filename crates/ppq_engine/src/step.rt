//! Executes one command, or commands that belong together.
ghost use Rattle.std.specs.Prelude.{◌≡◌, List, ℕ, None, OnOk, IfOk, max};
ghost use Rattle.ppq_script.specs.ppq_outside.Shown.{AllTell};
ghost use Rattle.ppq_script.specs.Parts.{commands_in, first_in};
ghost use Rattle.ppq_engine.specs.Calls.{IsCalled, Leaves, Lends, SinkCounts, LibraryCounts, IsTurn, Goes};
ghost use Rattle.ppq_engine.specs.Loads.{none_go, size_after};
ghost use Rattle.ppq_engine.specs.Output.{outside, text_of, after, TellsLengths};
ghost use Rattle.ppq_engine.specs.Gathers.{answer_text};
ghost use Rattle.ppq_engine.specs.Running.{PrintsOne, LendsQueue};
ghost use Rattle.ppq_engine.specs.Work.{pushes_of};

use crate::Answer;
use crate::machine::Machine;
use crate::print::print;
use crate::stop::Stop;
use crate::world::World;
use ppq_load::QueueFault;
use ppq_script::{Command, Fields, Gate, Host, Library, Part, Script, Sink, Slot};

impl<S: Slot + Send + Sync, R: Fields + Send + Sync> Machine<S, R> {
    // Runs a command that adds one record at the most and prints one answer.
    fn act<H: Host, G: Gate>(
        &mut self,
        world: &World<'_, H, G>,
        command: Command<R>,
    ) -> Result<Answer<R>, QueueFault>
    where
        H::Dir: Send,
        requires sound { self.old.queue.failed ≡ None }
        requires plain { PrintsOne command }
        ensures text { IfOk result (λ answer. AllTell self.old.queue.slots → answer_text R.Fields world.now.form answer ≡ text_of R.Fields world.now.form (outside self.old.queue.bag) command) }
        ensures left { OnOk result ((given : ℕ → List R) (leaves : ℕ → ℕ → ℕ) → Leaves self.old.queue self.new.queue (after R.Fields given (outside self.old.queue.bag) command).bag (size_after R.Fields leaves self.old.queue.size command) (size_after R.Fields leaves self.old.queue.size command)) }
        ensures called { IsCalled self.old.queue self.new.queue self.old.desk.gathered self.new.desk.gathered (max self.old.queue.peak (size_after R.Fields none_go self.old.queue.size command)) (pushes_of R.Fields command) result }
    {
        match command {
            Command::Push { item } => match self.queue.push(world.rt, item, world.gate) {
                Ok(()) => Ok(Answer::Nothing),
                Err(refused) => Err(refused.1),
            },
            Command::Pop => Ok(Answer::least(self.queue.pop(world.rt, world.gate)?)),
            Command::Top => Ok(Answer::least(self.queue.top(world.rt, world.gate)?)),
            Command::Size => {
                self.queue.known();
                Ok(Answer::Size {
                    records: self.queue.size(),
                })
            }
            Command::Drain { count } => {
                let drained = self.drain(world, count)?;
                Ok(Answer::Drained { drained })
            }
            Command::Bulk { .. }
            | Command::Gen { .. }
            | Command::BulkPop { .. }
            | Command::BulkPopLimit { .. }
            | Command::BulkBegin
            | Command::BulkPush { .. }
            | Command::BulkEnd
            | Command::LimitBegin { .. }
            | Command::LimitPush { .. }
            | Command::LimitTop
            | Command::LimitPop
            | Command::LimitEnd => Ok(Answer::Nothing),
        }
    }

    /// Runs one command that needs no session and no file, on whatever the queue holds: `push`, `pop`, `top`,
    /// `size`, `drain`, `bulk_pop` or `bulk_pop_limit`. What it prints is gathered in the desk, and put where
    /// there is no room for more; put what is gathered at the end. `Sink` comes if the sink failed, and `Queue` if
    /// a block failed or none was free. It allocates nothing. It costs what the call of the queue costs, and beside
    /// it what the printed records are long.
    pub fn lend<H: Host, O: Sink, G: Gate>(
        &mut self,
        world: &World<'_, H, G>,
        command: Command<R>,
        out: &mut O,
    ) -> Result<(), Stop>
    where
        H::Dir: Send,
        requires sound { self.old.queue.failed ≡ None }
        requires lends { LendsQueue command }
        ensures { Lends R.Fields world.now.form (O.told out.old) (O.told out.new) (O.faults out.old) (O.faults out.new) self.old.queue self.new.queue self.old.desk.gathered self.new.desk.gathered command result }
    {
        match command {
            Command::BulkPop { count } => self.print_popped(world, None, count, out),
            Command::BulkPopLimit { limit, count } => {
                self.print_limited(world, limit, count, out)
            }
            _ => {
                let answer = self.act(world, command)?;
                let gathered = &mut self.desk.gathered;
                print(world.rt, world.form, answer, gathered, out)?;
                Ok(())
            }
        }
    }

    // Runs the commands of a part, at this place of this script. It returns the machine.
    pub(crate) fn advance<H: Host, L: Library, O: Sink, G: Gate>(
        self,
        world: &World<'_, H, G>,
        script: &Script<R>,
        place: usize,
        part: Part<'_, R>,
        library: &mut L,
        out: &mut O,
    ) -> (Machine<S, R>, Result<(), Stop>)
    where
        H::Dir: Send,
        requires turn { IsTurn R.Fields script.now self.queue place part }
        requires lengths { TellsLengths (L.told library.old) script.now }
        ensures goes { Goes R.Fields world.now.form (L.told library.old) script.now (first_in part.entry) (commands_in part.entry) (O.told out.old) (O.told out.new) self.queue result.0.queue self.desk.gathered result.0.desk.gathered result.1 }
        ensures library { LibraryCounts (L.told library.old) (L.told library.new) (L.replied library.old) (L.replied library.new) script.now (L.faults library.old) (L.faults library.new) result.1 }
        ensures sink { SinkCounts (O.faults out.old) (O.faults out.new) result.1 }
    {
        let command = match part {
            Part::Bulk { lines } => return self.run_bulk(world, lines),
            Part::Limit { limit, lines } => return self.run_limit(world, limit, lines, out),
            Part::One { command } => command,
        };
        match command {
            Command::Bulk { file, length } => {
                self.push_file(world, script, place, file, length, library)
            }
            Command::Gen { seed, count } => self.push_generated(world, seed, count),
            _ => {
                self.queue.known();
                let mut machine = self;
                let done = machine.lend(world, command, out);
                (machine, done)
            }
        }
    }
}
