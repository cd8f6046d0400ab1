//! What a command prints.
ghost use Rattle.std.specs.Prelude.{◌≡◌};
ghost use Rattle.ppq_script.specs.declared.form.Form.{Form};
ghost use Rattle.ppq_engine.specs.Gathers.{answer_text};
ghost use Rattle.ppq_engine.specs.Output.{least_text, limited_text};

use crate::drained::Drained;
use ppq_script::Fields;

/// What a command prints, or a part of it: nothing, that there is no record, a record, how many records
/// there are, whether a limited pop gave all, that no record is below a session's limit, or what was
/// drained. All but nothing is a line in the form `Text`, and a frame in the form `Bytes`.
#[derive(Clone, Copy, Debug, PartialEq, Eq)]
pub enum Answer<R> {
    /// Nothing.
    Nothing,
    /// There is no record: `empty`, or the byte `e`.
    Empty,
    /// A record: its fields, or its bytes.
    Record { item: R },
    /// How many records there are: in decimal, or in 8 bytes.
    Size { records: u64 },
    /// No record below the limit of a limited pop is left: `all`, or the byte `a`.
    All,
    /// One is left: `more`, or the byte `m`.
    More,
    /// No record is below the limit of the session: `limit`, or the byte `l`.
    Limit,
    /// What was drained: `count`, `first`, `last` and `sum`, or the number in 8 bytes, the two records and
    /// the sum in 8 bytes; where nothing was, `count 0`, or 8 zero bytes.
    Drained { drained: Drained<R> },
}

impl<R: Fields> Answer<R> {
    // What is printed of the smallest record.
    pub(crate) fn least(item: Option<R>) -> Answer<R>
        ensures { (form : Form) → answer_text R.Fields form result ≡ least_text R.Fields form item }
    {
        match item {
            Some(item) => Answer::Record { item },
            None => Answer::Empty,
        }
    }

    // What is printed of the smallest record below the limit of the session.
    pub(crate) fn limited(item: Option<R>) -> Answer<R>
        ensures { (form : Form) → answer_text R.Fields form result ≡ limited_text R.Fields form item }
    {
        match item {
            Some(item) => Answer::Record { item },
            None => Answer::Limit,
        }
    }
}
