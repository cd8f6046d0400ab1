//! Sessions, and where a line may stand.
ghost use Rattle.std.specs.Prelude.{◌≡◌};
ghost use Rattle.ppq_script.specs.Sessions.{turn_of, may_stand, is_outside, is_in_limit, is_at_limit};
ghost use Rattle.ppq_script.specs.Lines.{placed, session_behind};
ghost use Rattle.ppq_script.specs.Shown.{kind_in};

use crate::Command;
use crate::line::Line;
use ppq_record::Fields;

// The session in which a line stands.
#[derive(Clone, Copy, Debug, PartialEq, Eq)]
pub enum Session<R> {
    // No session is open.
    Outside,
    // A bulk session.
    InBulk,
    // A limit session with this limit.
    InLimit { limit: R },
}

// Whether no session is open.
pub fn stands_outside<R: Fields>(session: &Session<R>) -> bool
    ensures { result ≡ is_outside session.now }
{
    matches!(session, Session::Outside)
}

// Whether a limit session is open.
fn stands_in_limit<R: Fields>(session: &Session<R>) -> bool
    ensures { result ≡ is_in_limit session.now }
{
    matches!(session, Session::InLimit { .. })
}

// Whether a limit session is open whose limit this record is not below.
fn reaches_limit<R: Fields>(session: &Session<R>, item: &R) -> bool
    ensures { result ≡ is_at_limit R.Fields session.now item.now }
{
    match session {
        Session::InLimit { limit } => !item.is_less(limit),
        _ => false,
    }
}

// Whether a command may stand in a session of a script for so many workers.
fn allows<R: Fields>(session: &Session<R>, command: &Command<R>, workers: u32) -> bool
    ensures { result ≡ may_stand R.Fields workers session.now command.now }
{
    match command {
        Command::BulkPush { pass, .. } => matches!(session, Session::InBulk) && *pass < workers,
        Command::BulkEnd => matches!(session, Session::InBulk),
        Command::LimitPush { pass, item } => reaches_limit(session, item) && *pass < workers,
        Command::LimitTop | Command::LimitPop | Command::LimitEnd => stands_in_limit(session),
        _ => stands_outside(session),
    }
}

// The session behind a command that begins or ends one.
pub fn turn<R: Fields>(command: Command<R>) -> Option<Session<R>>
    ensures { result ≡ turn_of command }
{
    match command {
        Command::BulkBegin => Some(Session::InBulk),
        Command::LimitBegin { limit } => Some(Session::InLimit { limit }),
        Command::BulkEnd | Command::LimitEnd => Some(Session::Outside),
        _ => None,
    }
}

// The session behind a line that stands in one. A bad line, a comment and a blank line change
// nothing of it.
pub fn session_after<R: Fields>(session: &Session<R>, line: &Line<'_, R>) -> Session<R>
    ensures { result ≡ session_behind session.now (kind_in line.now) }
{
    match line {
        Line::Plain { command } => turn(*command).unwrap_or(*session),
        _ => *session,
    }
}

// The line, or a bad one where it may not stand in this session of a script for so many workers.
pub fn place<'a, R: Fields>(line: Line<'a, R>, session: &Session<R>, workers: u32) -> Line<'a, R>
    ensures { kind_in result ≡ placed R.Fields workers session.now (kind_in line.entry) }
{
    match line {
        Line::Plain { command } => {
            if allows(session, &command, workers) {
                Line::Plain { command }
            } else {
                Line::Bad
            }
        }
        Line::OfFile { name } => {
            if stands_outside(session) {
                Line::OfFile { name }
            } else {
                Line::Bad
            }
        }
        _ => line,
    }
}
