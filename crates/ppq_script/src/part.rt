//! Commands that run together.
ghost use Rattle.std.specs.Prelude.{◌≡◌, ◌<◌, ◌^◌, ℕ, length};
ghost use Rattle.ppq_script.specs.declared.session.Session.{Session};
ghost use Rattle.ppq_script.specs.Sessions.{turn_of};
ghost use Rattle.ppq_script.specs.Parts.{commands_of, commands_in, is_end, IsOpenIn, EndsAt};

use crate::session::{Session, turn};
use crate::{Command, Numbered};
use ppq_record::Fields;

/// Commands of a script that run together: a session from its beginning to its end, of which it has
/// the lines between these two, as they stand in the script; or one command that stands in no session.
#[derive(Clone, Copy, Debug, PartialEq, Eq)]
pub enum Part<'a, R> {
    /// A command alone.
    One { command: Command<R> },
    /// A bulk session. Its lines are `bulk_push`.
    Bulk { lines: &'a [Numbered<R>] },
    /// A limit session with this limit. Its lines are `limit_push`, `limit_top` and `limit_pop`.
    Limit { limit: R, lines: &'a [Numbered<R>] },
}

impl<R: Fields> Part<'_, R> {
    /// How many commands it has, with the beginning and the end of a session.
    pub fn count(&self) -> usize
        requires { length (commands_in self.now) < 2 ^ 64 }
        ensures { result ≡ length (commands_in self.now) }
    {
        match self {
            Part::One { .. } => 1,
            Part::Bulk { lines } | Part::Limit { lines, .. } => lines.len() + 2,
        }
    }
}

// Whether a command ends a session.
fn ends<R: Fields>(command: Command<R>) -> bool
    ensures { result ≡ is_end (turn_of command) }
{
    matches!(turn(command), Some(Session::Outside))
}

// The lines of the session in which these commands stand, up to the one that ends it.
pub fn session_lines<R: Fields>(items: &[Numbered<R>]) -> &[Numbered<R>]
    requires { (workers : ℕ) × ((session : Session R) × IsOpenIn R.Fields workers session (commands_of items.now)) }
    ensures { (workers : ℕ) (session : Session R) → IsOpenIn R.Fields workers session (commands_of items.now) → EndsAt R.Fields workers session (commands_of items.now) (commands_of result.now) }
{
    let mut count = 0;
    'lines: while !ends(items[count].command) {
        count += 1;
    }
    &items[..count]
}
