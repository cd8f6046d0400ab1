//! Removes many records from a queue, and prints them or what they add up to.
ghost use Rattle.std.specs.Prelude.{◌≡◌, ◌<◌, ◌+◌, ◌-◌, ◌^◌, ◌++◌, List, None, Some, OnOk, IfOk, length};
ghost use Rattle.ppq_script.specs.ppq_record.Bag.{front, without_front};
ghost use Rattle.ppq_script.specs.ppq_outside.Shown.{AllTell};
ghost use Rattle.ppq_script.specs.declared.command.Command.TheVariants.{BulkPopLimit};
ghost use Rattle.ppq_engine.specs.Output.{records_text};
ghost use Rattle.ppq_engine.specs.Gathers.{answer_text, IsSummary};
ghost use Rattle.ppq_engine.specs.Calls.{IsCalled, IsLent, Leaves, Lends, PopsRound, Prints, SinkCounts};
ghost use Rattle.ppq_text.specs.Gathering.{GathersAll};
ghost use Rattle.ppq_engine.specs.Popping.{next_of, popped_count, left_at_most, left_mark};

use crate::items::item_at;
use crate::machine::Machine;
use crate::print::print;
use crate::stop::Stop;
use crate::world::World;
use crate::{Answer, Drained};
use ppq_load::QueueFault;
use ppq_record::record_laws;
use ppq_script::{Failed, Fields, Form, Gate, Host, Sink, Slot};
use ppq_text::{Gathered, OnHeap};

// What was drained, and then these records.
fn add_all<R: Fields>(before: Drained<R>, items: &[R]) -> Drained<R>
    requires { before.count + length items.now < 2 ^ 64 }
    ensures count { result.count ≡ before.count + length items.now }
    ensures summary { (had : List R) → IsSummary R.Fields had before → IsSummary R.Fields (had ++ items.now) result }
{
    let mut drained = before;
    for i in 0..items.len() {
        drained = drained.add(item_at(items, i));
    }
    drained
}

// Prints these records.
fn print_all<H: Host, R: Fields, O: Sink>(
    rt: &H,
    form: Form,
    items: &[R],
    gathered: &mut Gathered<OnHeap>,
    out: &mut O,
) -> Result<(), Failed>
    ensures { GathersAll (O.told out.old) (O.told out.new) (O.faults out.old) (O.faults out.new) gathered.old (records_text R.Fields form items.now) gathered.new result }
{
    for i in 0..items.len() {
        let item = item_at(items, i);
        print(rt, form, Answer::Record { item }, gathered, out)?;
    }
    Ok(())
}

impl<S: Slot + Send + Sync, R: Fields + Send + Sync> Machine<S, R> {
    // Removes a round of the smallest records, as many as the list has room for, and at most so many, and only
    // those below the limit where there is one. They are in the list.
    fn pop_round<H: Host, G: Gate>(
        &mut self,
        world: &World<'_, H, G>,
        below: Option<R>,
        count: u64,
    ) -> Result<(), QueueFault>
    where
        H::Dir: Send,
        requires { 0 < count }
        ensures popped { OnOk result (PopsRound R.Fields below count self.old.queue self.new.queue self.new.desk.list.items) }
        ensures called { IsCalled self.old.queue self.new.queue self.old.desk.gathered self.new.desk.gathered self.old.queue.peak 0 result }
    {
        record_laws::<R>();
        self.queue.known();
        match below {
            None => {
                let _taken = self
                    .queue
                    .bulk_pop(world.rt, count, &mut self.desk.list, world.gate)?;
                Ok(())
            }
            Some(limit) => {
                let _end = self
                    .queue
                    .bulk_pop_limit(world.rt, limit, count, &mut self.desk.list, world.gate)?;
                Ok(())
            }
        }
    }

    // Removes up to so many smallest records, and says what they add up to.
    pub(crate) fn drain<H: Host, G: Gate>(
        &mut self,
        world: &World<'_, H, G>,
        count: u64,
    ) -> Result<Drained<R>, QueueFault>
    where
        H::Dir: Send,
        requires { self.old.queue.failed ≡ None }
        ensures summary { IfOk result (λ drained. AllTell self.old.queue.slots → IsSummary R.Fields (front R.Ord.cmp self.old.queue.bag count) drained) }
        ensures left { OnOk result (Leaves self.old.queue self.new.queue (without_front R.Ord.cmp self.old.queue.bag count) (self.old.queue.size - count) (self.old.queue.size - count)) }
        ensures called { IsCalled self.old.queue self.new.queue self.old.desk.gathered self.new.desk.gathered self.old.queue.peak 0 result }
    {
        record_laws::<R>();
        let mut drained = Drained::nothing();
        let mut done = 0;
        'rounds: while done < count {
            self.pop_round(world, None, count - done)?;
            if self.desk.list.is_empty() {
                return Ok(drained);
            }
            drained = add_all(drained, self.desk.list.as_slice());
            done += u64::from(self.desk.list.len());
        }
        Ok(drained)
    }

    // Removes up to so many smallest records, only those below the limit where there is one, and prints
    // them.
    pub(crate) fn print_popped<H: Host, O: Sink, G: Gate>(
        &mut self,
        world: &World<'_, H, G>,
        below: Option<R>,
        count: u64,
        out: &mut O,
    ) -> Result<(), Stop>
    where
        H::Dir: Send,
        requires { self.old.queue.failed ≡ None }
        ensures prints { Prints self.old.queue.slots (O.told out.old) (O.told out.new) self.old.desk.gathered (records_text R.Fields world.now.form (front R.Ord.cmp self.old.queue.bag (popped_count R.Fields below self.old.queue.bag count))) self.new.desk.gathered result }
        ensures sink { SinkCounts (O.faults out.old) (O.faults out.new) result }
        ensures left { OnOk result (Leaves self.old.queue self.new.queue (without_front R.Ord.cmp self.old.queue.bag (popped_count R.Fields below self.old.queue.bag count)) (self.old.queue.size - count) (left_at_most below self.old.queue.size count)) }
        ensures lent { IsLent self.old.queue self.new.queue self.old.queue.peak 0 result }
    {
        record_laws::<R>();
        let mut done = 0;
        'rounds: while done < count {
            self.pop_round(world, below, count - done)?;
            if self.desk.list.is_empty() {
                return Ok(());
            }
            let desk = &mut self.desk;
            print_all(
                world.rt,
                world.form,
                desk.list.as_slice(),
                &mut desk.gathered,
                out,
            )?;
            done += u64::from(self.desk.list.len());
        }
        Ok(())
    }

    // Whether a record below the limit is left.
    fn mark_of<H: Host, G: Gate>(
        &mut self,
        world: &World<'_, H, G>,
        limit: R,
    ) -> Result<Answer<R>, QueueFault>
    where
        H::Dir: Send,
        ensures text { IfOk result (λ answer. AllTell self.old.queue.slots → answer_text R.Fields world.now.form answer ≡ left_mark world.now.form (next_of R.Fields (Some limit) self.old.queue.bag)) }
        ensures left { OnOk result (Leaves self.old.queue self.new.queue self.old.queue.bag self.old.queue.size self.old.queue.size) }
        ensures called { IsCalled self.old.queue self.new.queue self.old.desk.gathered self.new.desk.gathered self.old.queue.peak 0 result }
    {
        match self.queue.top(world.rt, world.gate)? {
            None => Ok(Answer::All),
            Some(item) => {
                if item.is_less(&limit) {
                    Ok(Answer::More)
                } else {
                    Ok(Answer::All)
                }
            }
        }
    }

    // Removes up to so many smallest records that are below the limit, and prints them, and then whether none
    // below it is left.
    pub(crate) fn print_limited<H: Host, O: Sink, G: Gate>(
        &mut self,
        world: &World<'_, H, G>,
        limit: R,
        count: u64,
        out: &mut O,
    ) -> Result<(), Stop>
    where
        H::Dir: Send,
        requires { self.old.queue.failed ≡ None }
        ensures { Lends R.Fields world.now.form (O.told out.old) (O.told out.new) (O.faults out.old) (O.faults out.new) self.old.queue self.new.queue self.old.desk.gathered self.new.desk.gathered (BulkPopLimit limit count) result }
    {
        record_laws::<R>();
        self.print_popped(world, Some(limit), count, out)?;
        let mark = self.mark_of(world, limit)?;
        let gathered = &mut self.desk.gathered;
        print(world.rt, world.form, mark, gathered, out)?;
        Ok(())
    }
}
