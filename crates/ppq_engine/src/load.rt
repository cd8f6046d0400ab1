//! Adds many records to a queue by a session: generated ones, or those of a file.
ghost use Rattle.std.specs.Prelude.{◌≡◌, ◌∷◌, [], List, ℕ, Option, IfErr};
ghost use Rattle.ppq_script.specs.declared.command.Command.TheVariants.{Bulk, Gen};
ghost use Rattle.ppq_script.specs.declared.part.Part.TheVariants.{One};
ghost use Rattle.ppq_engine.specs.Calls.{IsTurn, Goes, GoesAlone, LibraryCounts};
ghost use Rattle.ppq_engine.specs.Files.{load_stop, load_result, IsByFile};
ghost use Rattle.ppq_engine.specs.Output.{TellsLengths};

use crate::machine::Machine;
use crate::stop::Stop;
use crate::world::World;
use ppq_load::{LoadFault, load_file, load_generated};
use ppq_script::{Fields, Gate, Host, Library, Script, Slot};

// A fault of a load, for the command on this line, whose file has so many bytes.
fn stop_of(fault: LoadFault, line: u32, said: u64) -> Stop
    ensures { result ≡ load_stop line said fault }
{
    match fault {
        LoadFault::Queue { fault } => Stop::Queue { fault },
        LoadFault::Read => Stop::Read,
        LoadFault::Memory => Stop::Memory,
        LoadFault::Ended { got } => Stop::Changed { line, said, got },
    }
}

// What a load answered, with its fault as a stop.
fn stopped(loaded: Result<(), LoadFault>, line: u32, said: u64) -> Result<(), Stop>
    ensures { result ≡ load_result line said loaded }
{
    match loaded {
        Ok(()) => Ok(()),
        Err(fault) => Err(stop_of(fault, line, said)),
    }
}

impl<S: Slot + Send + Sync, R: Fields + Send + Sync> Machine<S, R> {
    // Adds so many generated records. It returns the machine.
    pub(crate) fn push_generated<H: Host, G: Gate>(
        self,
        world: &World<'_, H, G>,
        seed: u64,
        count: u64,
    ) -> (Machine<S, R>, Result<(), Stop>)
    where
        H::Dir: Send,
        ensures { GoesAlone R.Fields (Gen seed count) (Gen seed count ∷ []) self.queue result.0.queue self.desk.gathered result.0.desk.gathered result.1 }
    {
        let Machine { queue, desk } = self;
        let (queue, loaded) = load_generated(world.rt, world.alloc, queue, seed, count, world.gate);
        (Machine { queue, desk }, stopped(loaded, 0, 0))
    }

    // Adds the records of a file of `said` bytes, for the command at this place of this script. They are
    // read by pieces of as many records as the desk has room for. It returns the machine.
    pub(crate) fn push_file<H: Host, L: Library, G: Gate>(
        self,
        world: &World<'_, H, G>,
        script: &Script<R>,
        place: usize,
        file: u32,
        said: u64,
        library: &mut L,
    ) -> (Machine<S, R>, Result<(), Stop>)
    where
        H::Dir: Send,
        requires turn { IsTurn R.Fields script.now self.queue place (One (Bulk file said)) }
        requires lengths { TellsLengths (L.told library.old) script.now }
        ensures goes { (put : Option (List ℕ)) → Goes R.Fields world.now.form (L.told library.old) script.now (Bulk file said) (Bulk file said ∷ []) put put self.queue result.0.queue self.desk.gathered result.0.desk.gathered result.1 }
        ensures by_file { IfErr result.1 IsByFile }
        ensures library { LibraryCounts (L.told library.old) (L.told library.new) (L.replied library.old) (L.replied library.new) script.now (L.faults library.old) (L.faults library.new) result.1 }
    {
        let name = script.name(file);
        let line = script.line(place);
        let Machine { queue, desk } = self;
        let mut desk = desk;
        let (queue, loaded) = load_file(
            world.rt,
            world.alloc,
            library,
            name,
            said,
            &mut desk.room,
            queue,
            world.gate,
        );
        (Machine { queue, desk }, stopped(loaded, line, said))
    }
}
