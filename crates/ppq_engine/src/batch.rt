//! A batch of lines of a session.
ghost use Rattle.std.specs.Prelude.{◌≡◌, ◌≤◌, ◌<◌, ◌+◌, ◌++◌, false, length, IsTrue, vec_len, vec_capacity, IfOk};
ghost use Rattle.ppq_script.specs.Parts.{AreLines, commands_of};
ghost use Rattle.ppq_script.specs.declared.session.Session.TheVariants.{InLimit};
ghost use Rattle.ppq_load.specs.ppq_session.LimitSessions.{AreGoing, HasStopped};
ghost use Rattle.ppq_text.specs.Gathering.{GathersAll};
ghost use Rattle.ppq_engine.specs.Limits.{ask_by, asks_in, answers_text, RunsBatch};

use crate::Answer;
use crate::collected::Collected;
use crate::items::item_at;
use crate::print::print;
use ppq_load::{Ask, LimitSession};
use ppq_record::record_laws;
use ppq_script::{Command, Failed, Fields, Form, Gate, Host, Memory, Numbered, Sink, Slot};
use ppq_text::{Gathered, OnHeap};
use std::alloc::Global;

// The first of these lines, at most so many, and those after them.
pub fn cut<R: Fields>(lines: &[Numbered<R>], most: usize) -> (&[Numbered<R>], &[Numbered<R>])
    requires { 0 < most }
    ensures all { commands_of lines.now ≡ commands_of result.0.now ++ commands_of result.1.now }
    ensures few { length result.0.now ≤ most }
    ensures fewer { 0 < length lines.now → length result.1.now < length lines.now }
{
    if lines.len() < most {
        lines.split_at(lines.len())
    } else {
        lines.split_at(most)
    }
}

// What the lines of a batch of a limit session push, what they ask, and what was answered. The memory for
// as many lines as a batch may have is allocated once.
#[derive(Drop)]
pub struct Batch<R: Fields> {
    pub lines: Collected<R>,
    asks: Vec<Ask>,
    pub answers: Vec<Option<R>>,

    ghost few: { vec_len asks ≤ lines.most },
    ghost for_asks: { lines.most ≤ vec_capacity asks },
    ghost for_answers: { lines.most ≤ vec_capacity answers },
}

impl<R: Fields + Send + Sync> Batch<R> {
    // No line, with memory for so many.
    pub fn new(alloc: Global, most: u32) -> Result<Batch<R>, Memory>
        requires { 0 < most }
        ensures { IfOk result (λ batch. batch.lines.most ≡ most) }
    {
        let lines = Collected::new(alloc, most)?;
        let asks = Vec::with_capacity(alloc, lines.most)?;
        let answers = Vec::with_capacity(alloc, lines.most)?;
        Ok(Batch {
            lines,
            asks,
            answers,
        })
    }

    // Takes what these lines ask in place of what was asked.
    fn fill(&mut self, lines: &[Numbered<R>])
        requires { length lines.now ≤ self.old.lines.most }
        ensures asks { self.new.asks.items ≡ asks_in (commands_of lines.now) }
        ensures lines { self.new.lines ≡ self.old.lines }
    {
        self.asks.clear();
        for i in 0..lines.len() {
            self.take(lines[i].command);
        }
    }

    // Takes what a command asks of the front.
    fn take(&mut self, command: Command<R>)
        requires { vec_len self.old.asks < self.old.lines.most }
        ensures asks { self.new.asks.items ≡ self.old.asks.items ++ ask_by command }
        ensures few { vec_len self.new.asks ≤ vec_len self.old.asks + 1 }
        ensures lines { self.new.lines ≡ self.old.lines }
    {
        match command {
            Command::LimitTop => {
                self.asks.push_reserved(Ask::Top);
            }
            Command::LimitPop => {
                self.asks.push_reserved(Ask::Pop);
            }
            _ => {}
        }
    }

    // Runs a batch of lines in a session. Whether all was done.
    pub fn run<H: Host, S: Slot + Send + Sync, G: Gate>(
        &mut self,
        rt: &H,
        session: &mut LimitSession<S, R>,
        lines: &[Numbered<R>],
        gate: &G,
    ) -> bool
    where
        H::Dir: Send,
        requires few { length lines.now ≤ self.old.lines.most }
        requires lines { AreLines R.Fields session.old.front.sizes.workers (InLimit session.old.front.limit) (commands_of lines.now) }
        requires going { AreGoing session.old }
        ensures all { IsTrue result → AreGoing session.new }
        ensures stopped { result ≡ false → HasStopped session.new }
        ensures ran { RunsBatch R.Fields S.shown (commands_of lines.now) self.new.answers.items session.old session.new }
    {
        record_laws::<R>();
        self.lines.fill(lines);
        self.fill(lines);
        self.answers.clear();
        session.run(rt, &self.lines.items, &self.asks, &mut self.answers, gate)
    }

    // Gathers the answers' texts, in the order of lines.
    pub fn print<H: Host, O: Sink>(
        &self,
        rt: &H,
        form: Form,
        gathered: &mut Gathered<OnHeap>,
        out: &mut O,
    ) -> Result<(), Failed>
        ensures { GathersAll (O.told out.old) (O.told out.new) (O.faults out.old) (O.faults out.new) gathered.old (answers_text R.Fields form self.now.answers.items) gathered.new result }
    {
        for i in 0..self.answers.len() {
            let answer = Answer::limited(item_at(&self.answers, i));
            print(rt, form, answer, gathered, out)?;
        }
        Ok(())
    }
}
