//! What a line is.
ghost use Rattle.std.specs.Prelude.{◌≡◌, ◌∷◌, []};
ghost use Rattle.std.specs.List.{list_all};
ghost use Rattle.std.specs.Char.{is_ascii_graphic};
ghost use Rattle.ppq_script.specs.Lines.{fields_of, kind_of};
ghost use Rattle.ppq_script.specs.Command.{file_of, is_file_name};
ghost use Rattle.ppq_script.specs.Shown.{text_in, kind_in};

use crate::Command;
use crate::command::read_command;
use crate::fields::{next_field, text};
use ppq_record::Fields;

// What a line of a script is.
#[derive(Clone, Copy, Debug, PartialEq, Eq)]
pub(crate) enum Line<'a, R> {
    // Blank, or a comment. The head is passed before lines are read.
    Skipped,
    // A command that names no file.
    Plain { command: Command<R> },
    // The command `bulk` with the name of a file.
    OfFile { name: &'a str },
    // None of these.
    Bad,
}

// Whether each byte is from 0x21 to 0x7E.
fn is_graphic(bytes: &[u8]) -> bool
    ensures { result ≡ list_all is_ascii_graphic bytes.now }
{
    for byte in bytes {
        if !byte.is_ascii_graphic() {
            return false;
        }
    }
    true
}

// Whether these bytes are the name of a file: 1 to 255 bytes from 0x21 to 0x7E.
fn is_name(bytes: &[u8]) -> bool
    ensures { result ≡ is_file_name bytes.now }
{
    is_graphic(bytes) && bytes.len() >= 1 && bytes.len() <= 255
}

// The name of a file, if these bytes are one.
fn file_name(bytes: &[u8]) -> Option<&str>
    ensures { text_in result ≡ file_of (bytes.now ∷ []) }
{
    if !is_name(bytes) {
        return None;
    }
    match str::from_utf8(bytes) {
        Ok(name) => Some(name),
        Err(_) => None,
    }
}

// The name of a file that is the only field left.
fn file(rest: &[u8]) -> Option<&str>
    ensures { text_in result ≡ file_of (fields_of rest.now) }
{
    let first = next_field(rest)?;
    match next_field(first.1) {
        None => file_name(first.0),
        Some(_) => None,
    }
}

// What a line is. It costs time linear in its bytes.
pub(crate) fn read_line<R: Fields>(line: &[u8]) -> Line<'_, R>
    ensures { kind_in result ≡ kind_of R.Fields line.now }
{
    let Some(first) = next_field(text(line)) else {
        return Line::Skipped;
    };
    if first.0.starts_with(b"#".as_slice()) {
        return Line::Skipped;
    }
    if first.0 == b"bulk".as_slice() {
        return match file(first.1) {
            None => Line::Bad,
            Some(name) => Line::OfFile { name },
        };
    }
    match read_command(first.0, first.1) {
        None => Line::Bad,
        Some(command) => Line::Plain { command },
    }
}
