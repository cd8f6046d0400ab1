//! Prints answers: gathers their texts, and puts them where there is no room for more.
ghost use Rattle.std.specs.Prelude.{◌≡◌, ◌≤◌, ◌<◌, ◌+◌, ◌^◌, ◌++◌, length};
ghost use Rattle.std.specs.Int.{w32, w64, to_be_bytes};
ghost use Rattle.ppq_text.specs.Gathering.{GathersNext};
ghost use Rattle.ppq_engine.specs.Output.{written, fields_text, record_text, size_text, frame, drained_line, drained_bytes, drained_text};
ghost use Rattle.ppq_engine.specs.Gathers.{answer_text};

use crate::{Answer, Drained};
use ppq_record::{fields_laws, record_laws};
use ppq_script::{Failed, Fields, Form, Host, Sink};
use ppq_text::{Gathered, OnHeap};

// A length in bytes that no text of an answer passes: two records of at most eight fields and two numbers
// more, each of at most 20 digits and with a space behind it, and fewer than 40 letters and signs.
const LONGEST: usize = 512;

// Gathers an answer's text in this form, and puts what was gathered before where there is no room for
// it.
#[inline]
pub fn print<H: Host, R: Fields, O: Sink>(
    rt: &H,
    form: Form,
    answer: Answer<R>,
    gathered: &mut Gathered<OnHeap>,
    out: &mut O,
) -> Result<(), Failed>
    ensures { GathersNext (O.told out.old) (O.told out.new) (O.faults out.old) (O.faults out.new) gathered.old (answer_text R.Fields form answer) gathered.new result }
{
    gathered.make_room(rt, LONGEST, out)?;
    gather_answer(gathered, form, answer);
    Ok(())
}

// Gathers an answer's text in this form.
fn gather_answer<R: Fields>(gathered: &mut Gathered<OnHeap>, form: Form, answer: Answer<R>)
    requires { length gathered.old + 512 ≤ 65536 }
    ensures { gathered.new ≡ gathered.old ++ answer_text R.Fields form answer }
{
    match answer {
        Answer::Nothing => {}
        Answer::Empty => gather_line(gathered, form, b"empty\n", b"e"),
        Answer::Record { item } => gather_record(gathered, form, item),
        Answer::Size { records } => gather_size(gathered, form, records),
        Answer::All => gather_line(gathered, form, b"all\n", b"a"),
        Answer::More => gather_line(gathered, form, b"more\n", b"m"),
        Answer::Limit => gather_line(gathered, form, b"limit\n", b"l"),
        Answer::Drained { drained } => gather_drained(gathered, form, drained),
    }
}

// A line, or the frame of these bytes.
fn gather_line(gathered: &mut Gathered<OnHeap>, form: Form, line: &[u8], bytes: &[u8])
    requires line { length gathered.old + length line.now ≤ 65536 }
    requires frame { length gathered.old + length bytes.now + 4 ≤ 65536 }
    requires short { length bytes.now < 2 ^ 32 }
    ensures { gathered.new ≡ gathered.old ++ written form line.now bytes.now }
{
    match form {
        Form::Text => gathered.text(line),
        Form::Bytes => {
            gather_head(gathered, bytes.len() as u32);
            gathered.text(bytes);
        }
    }
}

// A record.
#[inline]
fn gather_record<R: Fields>(gathered: &mut Gathered<OnHeap>, form: Form, item: R)
    requires { length gathered.old + 169 ≤ 65536 }
    ensures { gathered.new ≡ gathered.old ++ record_text R.Fields form item }
{
    record_laws::<R>();
    fields_laws::<R>();
    match form {
        Form::Text => {
            gather_fields(gathered, item);
            gathered.text(b"\n");
        }
        Form::Bytes => {
            gather_head(gathered, R::WIDTH as u32);
            gather_record_bytes(gathered, item);
        }
    }
}

// How many records there are.
fn gather_size(gathered: &mut Gathered<OnHeap>, form: Form, records: u64)
    requires { length gathered.old + 21 ≤ 65536 }
    ensures { gathered.new ≡ gathered.old ++ size_text form records }
{
    match form {
        Form::Text => {
            gathered.number(records);
            gathered.text(b"\n");
        }
        Form::Bytes => {
            gather_head(gathered, 8);
            gather_word(gathered, records);
        }
    }
}

// What was drained.
fn gather_drained<R: Fields>(gathered: &mut Gathered<OnHeap>, form: Form, drained: Drained<R>)
    requires { length gathered.old + 512 ≤ 65536 }
    ensures { gathered.new ≡ gathered.old ++ drained_text R.Fields form drained.count drained.first drained.last drained.sum }
{
    match (drained.first, drained.last) {
        (Some(first), Some(last)) => match form {
            Form::Text => gather_drained_line(gathered, drained.count, first, last, drained.sum),
            Form::Bytes => gather_drained_frame(gathered, drained.count, first, last, drained.sum),
        },
        _ => gather_line(gathered, form, b"count 0\n", &[0; 8]),
    }
}

// What was drained, as a line.
fn gather_drained_line<R: Fields>(
    gathered: &mut Gathered<OnHeap>,
    count: u64,
    first: R,
    last: R,
    sum: u64,
)
    requires { length gathered.old + 512 ≤ 65536 }
    ensures { gathered.new ≡ gathered.old ++ drained_line R.Fields count first last sum }
{
    gathered.text(b"count ");
    gathered.number(count);
    gathered.text(b" first ");
    gather_fields(gathered, first);
    gathered.text(b" last ");
    gather_fields(gathered, last);
    gathered.text(b" sum ");
    gathered.number(sum);
    gathered.text(b"\n");
}

// What was drained, as a frame.
fn gather_drained_frame<R: Fields>(
    gathered: &mut Gathered<OnHeap>,
    count: u64,
    first: R,
    last: R,
    sum: u64,
)
    requires { length gathered.old + 512 ≤ 65536 }
    ensures { gathered.new ≡ gathered.old ++ frame (drained_bytes R.Fields count first last sum) }
{
    record_laws::<R>();
    gather_head(gathered, 2 * R::WIDTH as u32 + 16);
    gather_word(gathered, count);
    gather_record_bytes(gathered, first);
    gather_record_bytes(gathered, last);
    gather_word(gathered, sum);
}

// The fields of a record, parted by one space.
#[inline]
fn gather_fields<R: Fields>(gathered: &mut Gathered<OnHeap>, item: R)
    requires { length gathered.old + 168 ≤ 65536 }
    ensures text { gathered.new ≡ gathered.old ++ fields_text (R.fields_of item) }
    ensures length { length gathered.new ≤ length gathered.old + 168 }
{
    record_laws::<R>();
    fields_laws::<R>();
    let mut numbers = [0; 8];
    for i in 0..R::COUNT {
        numbers[i] = item.field(i);
    }
    gathered.numbers(&numbers[..R::COUNT]);
}

// The head of a frame: so many bytes follow.
fn gather_head(gathered: &mut Gathered<OnHeap>, bytes: u32)
    requires { length gathered.old + 4 ≤ 65536 }
    ensures text { gathered.new ≡ gathered.old ++ to_be_bytes w32 bytes }
    ensures length { length gathered.new ≡ length gathered.old + 4 }
{
    gathered.text(&bytes.to_be_bytes());
}

// The bytes of a record.
#[inline]
fn gather_record_bytes<R: Fields>(gathered: &mut Gathered<OnHeap>, item: R)
    requires { length gathered.old + R.WIDTH ≤ 65536 }
    ensures text { gathered.new ≡ gathered.old ++ R.bytes_of item }
    ensures length { length gathered.new ≡ length gathered.old + R.WIDTH }
{
    record_laws::<R>();
    fields_laws::<R>();
    for i in 0..R::COUNT {
        gather_word(gathered, item.field(i));
    }
}

// The eight bytes of a number.
fn gather_word(gathered: &mut Gathered<OnHeap>, number: u64)
    requires { length gathered.old + 8 ≤ 65536 }
    ensures text { gathered.new ≡ gathered.old ++ to_be_bytes w64 number }
    ensures length { length gathered.new ≡ length gathered.old + 8 }
{
    gathered.text(&number.to_be_bytes());
}
