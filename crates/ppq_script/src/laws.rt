//! What lines, numbers and commands mean.
ghost use Rattle.ppq_script.specs.Meaning.{LinesMean};

use ppq_record::{Fields, fields_laws, record_laws};

/// The law of the grammar, as a clause for the proof of whoever calls it, and for a reader. A number
/// is 1 to 20 decimal digits of a value that fits in 64 bits. A script is cut at its line feeds, and
/// its last line may lack one; a carriage return at the end of a line is dropped. Fields are parted
/// by spaces. A line is skipped exactly where it has no field or its first one begins with `#`, and a
/// command exactly where it is spelled as that command, a record as its numbers. The first line is a head
/// exactly where its fields are `ppq`, `2`, `pair` or `triple`, and `up` or `down`. The session before a
/// line is told by the last line before it that begins or ends one, and each line has just one; a command
/// may stand in some sessions alone, with a pass number below the workers, and a record that is not below
/// the limit. The first bad line is the smallest number of a line that is none of these, or that names a
/// file that cannot be used; or the number after the last line where a session is open there. The commands
/// are those of the lines before the first that is bad whatever the files are, in order. It does nothing.
#[inline]
pub fn lines_mean<R: Fields>()
    ensures { LinesMean R.Fields }
{
    record_laws::<R>();
    fields_laws::<R>();
}
