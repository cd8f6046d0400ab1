//! Lines of a session that are collected before its passes get them.
ghost use Rattle.std.specs.Prelude.{◌≡◌, ◌≤◌, ◌<◌, ◌+◌, ◌++◌, [], length, vec_len, vec_capacity, IfOk};
ghost use Rattle.ppq_script.specs.Parts.{commands_of};
ghost use Rattle.ppq_engine.specs.Pushes.{line_by, lines_in};

use ppq_load::Line;
use ppq_script::{Command, Fields, Memory, Numbered};
use std::alloc::Global;

// The lines of a batch. The memory for as many as may be is allocated once.
#[derive(Drop)]
pub struct Collected<R: Fields> {
    pub items: Vec<Line<R>>,
    // How many lines there may be.
    pub most: usize,

    ghost some: { 0 < most },
    ghost few: { vec_len items ≤ most },
    ghost capacity: { most ≤ vec_capacity items },
}

impl<R: Fields> Collected<R> {
    // No line, with memory for so many.
    pub fn new(alloc: Global, most: u32) -> Result<Collected<R>, Memory>
        requires { 0 < most }
        ensures most { IfOk result (λ lines. lines.most ≡ most) }
        ensures none { IfOk result (λ lines. lines.items.items ≡ []) }
    {
        let most = most as usize;
        let items = Vec::with_capacity(alloc, most)?;
        Ok(Collected { items, most })
    }

    // Takes these lines in place of those that it had.
    pub fn fill(&mut self, lines: &[Numbered<R>])
        requires { length lines.now ≤ self.old.most }
        ensures lines { self.new.items.items ≡ lines_in (commands_of lines.now) }
        ensures most { self.new.most ≡ self.old.most }
    {
        self.items.clear();
        for i in 0..lines.len() {
            self.take(lines[i].command);
        }
    }

    // Takes what a command pushes in a session.
    fn take(&mut self, command: Command<R>)
        requires { vec_len self.old.items < self.old.most }
        ensures lines { self.new.items.items ≡ self.old.items.items ++ line_by command }
        ensures few { vec_len self.new.items ≤ vec_len self.old.items + 1 }
        ensures most { self.new.most ≡ self.old.most }
    {
        match command {
            Command::BulkPush { pass, item } | Command::LimitPush { pass, item } => {
                self.items.push_reserved(Line { pass, record: item });
            }
            _ => {}
        }
    }
}
