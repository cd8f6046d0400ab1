//! Answers one request.
ghost use Rattle.std.specs.Prelude.{◌≡◌, ◌∷◌, ◌++◌, [], List, None, Some, OnOk, is_some, true, map};
ghost use Rattle.ppq_engine.specs.ppq_script.declared.command.Command.{Command};
ghost use Rattle.ppq_engine.specs.ppq_script.declared.command.Command.TheVariants.{Push, Size};
ghost use Rattle.ppq_engine.specs.Running.{LendsQueue};
ghost use Rattle.ppq_requests.specs.Requests.{records_in, commands_of, request_of};
ghost use Rattle.ppq_answer.specs.Serving.{Serves};

use ppq_engine::{Machine, Maker, Piece, Stop, World};
use ppq_record::record_laws;
use ppq_requests::{Command, Fields, Gate, Host, Operation, Sink, Slot, cut_operation};

// Executes a command that needs no session, and gathers what it prints.
fn execute<H: Host, S: Slot + Send + Sync, R: Fields + Send + Sync, O: Sink, G: Gate>(
    machine: &mut Machine<S, R>,
    world: &World<'_, H, G>,
    command: Command<R>,
    out: &mut O,
) -> Result<(), Stop>
where
    H::Dir: Send,
    requires sound { machine.old.queue.failed ≡ None }
    requires lends { LendsQueue command }
    ensures { Serves R.Fields world.now.form (O.told out.old) (O.told out.new) machine.old.queue machine.new.queue machine.old.desk.gathered machine.new.desk.gathered (command ∷ []) (O.faults out.old) (O.faults out.new) result }
{
    record_laws::<R>();
    let done = machine.lend(world, command, out);
    machine.queue.known();
    done
}

// Adds the records that stand in these bytes, one after the other. Each is decoded once.
fn push_records<H: Host, S: Slot + Send + Sync, R: Fields + Send + Sync, O: Sink, G: Gate>(
    machine: &mut Machine<S, R>,
    world: &World<'_, H, G>,
    records: &[u8],
    out: &mut O,
) -> Result<(), Stop>
where
    H::Dir: Send,
    requires sound { machine.old.queue.failed ≡ None }
    ensures { Serves R.Fields world.now.form (O.told out.old) (O.told out.new) machine.old.queue machine.new.queue machine.old.desk.gathered machine.new.desk.gathered (map Push (records_in R.Fields records.now)) (O.faults out.old) (O.faults out.new) result }
{
    let mut piece = Piece::new(records);
    'pushing: loop {
        let next: Option<R> = piece.make();
        match next {
            None => return Ok(()),
            Some(item) => match execute(machine, world, Command::Push { item }, out) {
                Ok(()) => {}
                Err(stop) => return Err(stop),
            },
        }
    }
}

// Executes an operation of a request.
fn operate<H: Host, S: Slot + Send + Sync, R: Fields + Send + Sync, O: Sink, G: Gate>(
    machine: &mut Machine<S, R>,
    world: &World<'_, H, G>,
    operation: Operation<'_, R>,
    out: &mut O,
) -> Result<(), Stop>
where
    H::Dir: Send,
    requires sound { machine.old.queue.failed ≡ None }
    ensures { Serves R.Fields world.now.form (O.told out.old) (O.told out.new) machine.old.queue machine.new.queue machine.old.desk.gathered machine.new.desk.gathered (commands_of R.Fields operation.entry) (O.faults out.old) (O.faults out.new) result }
{
    match operation {
        Operation::Push { item } => execute(machine, world, Command::Push { item }, out),
        Operation::PushMany { records } => push_records(machine, world, records, out),
        Operation::Pop => execute(machine, world, Command::Pop, out),
        Operation::Top => execute(machine, world, Command::Top, out),
        Operation::BulkPop { count } => execute(machine, world, Command::BulkPop { count }, out),
        Operation::BulkPopLimit { limit, count } => {
            execute(machine, world, Command::BulkPopLimit { limit, count }, out)
        }
    }
}

// Ends an answer: gathers how many records there are, and puts all that is gathered.
pub fn conclude<H: Host, S: Slot + Send + Sync, R: Fields + Send + Sync, O: Sink, G: Gate>(
    machine: &mut Machine<S, R>,
    world: &World<'_, H, G>,
    out: &mut O,
) -> Result<(), Stop>
where
    H::Dir: Send,
    requires sound { machine.old.queue.failed ≡ None }
    ensures serves { Serves R.Fields world.now.form (O.told out.old) (O.told out.new) machine.old.queue machine.new.queue machine.old.desk.gathered machine.new.desk.gathered (Size ∷ []) (O.faults out.old) (O.faults out.new) result }
    ensures put { OnOk result (machine.new.desk.gathered ≡ []) }
{
    record_laws::<R>();
    match execute(machine, world, Command::Size, out) {
        Ok(()) => {}
        Err(stop) => return Err(stop),
    }
    match machine.desk.gathered.put(world.rt, out) {
        Ok(()) => Ok(()),
        Err(_) => Err(Stop::Sink),
    }
}

// Executes a request, one operation after the other, and puts its answer, which the number of records ends.
pub fn answer<H: Host, S: Slot + Send + Sync, R: Fields + Send + Sync, O: Sink, G: Gate>(
    machine: &mut Machine<S, R>,
    world: &World<'_, H, G>,
    request: &[u8],
    out: &mut O,
) -> Result<(), Stop>
where
    H::Dir: Send,
    requires sound { machine.old.queue.failed ≡ None }
    requires request { is_some (request_of R.Fields request.now) ≡ true }
    ensures serves { (commands : List (Command R)) → request_of R.Fields request.now ≡ Some commands → Serves R.Fields world.now.form (O.told out.old) (O.told out.new) machine.old.queue machine.new.queue machine.old.desk.gathered machine.new.desk.gathered (commands ++ Size ∷ []) (O.faults out.old) (O.faults out.new) result }
    ensures put { OnOk result (machine.new.desk.gathered ≡ []) }
{
    let mut rest = request;
    'operations: loop {
        match cut_operation::<R>(rest) {
            None => return conclude(machine, world, out),
            Some((operation, behind)) => match operate(machine, world, operation, out) {
                Ok(()) => rest = behind,
                Err(stop) => return Err(stop),
            },
        }
    }
}
