//! The head of a script.
ghost use Rattle.std.specs.Prelude.{◌≡◌};
ghost use Rattle.ppq_script.specs.Head.{is_typed, kind_named, order_named, head_named, kind_and_order, head_in};
ghost use Rattle.ppq_script.specs.Lines.{fields_of, head_line, head_of};

use crate::fields::{next_field, text};
use crate::reader::cut_line;
use crate::{Kind, Order};
use ppq_record::Fields;

/// Which records a script is about, and in which order they go.
#[derive(Clone, Copy, Debug, PartialEq, Eq)]
pub struct Head {
    /// Which records.
    pub kind: Kind,
    /// Which one goes first.
    pub order: Order,
}

impl Head {
    /// Whether a script with this head is about records of this type.
    pub fn is_of<R: Fields>(self) -> bool
        ensures { result ≡ is_typed R.Fields self }
    {
        R::COUNT == self.kind.count() && self.order.fits(R::DOWN)
    }
}

/// The head of a script: what its first line says where its fields are `ppq`, `2`, `pair` or
/// `triple`, and `up` or `down`; and else pairs, the smallest first. It takes no memory, and costs time
/// linear in the bytes of that line.
pub fn read_head(bytes: &[u8]) -> Head
    ensures { result ≡ head_of bytes.now }
{
    let plain = Head {
        kind: Kind::Pair,
        order: Order::Up,
    };
    if bytes.is_empty() {
        return plain;
    }
    let (line, _behind) = cut_line(bytes);
    read_head_line(line).unwrap_or(plain)
}

// The head that a line is, if it is one.
pub fn read_head_line(line: &[u8]) -> Option<Head>
    ensures { result ≡ head_line line.now }
{
    read_fields(text(line))
}

// The head that the fields of a text are, if they are one.
fn read_fields(text: &[u8]) -> Option<Head>
    ensures { result ≡ head_in (fields_of text.now) }
{
    let name = next_field(text)?;
    let version = next_field(name.1)?;
    if name.0 == b"ppq".as_slice() && version.0 == b"2".as_slice() {
        last_fields(version.1)
    } else {
        None
    }
}

// The head whose kind and order are the two fields left.
fn last_fields(rest: &[u8]) -> Option<Head>
    ensures { result ≡ kind_and_order (fields_of rest.now) }
{
    let kind = next_field(rest)?;
    let order = next_field(kind.1)?;
    match next_field(order.1) {
        None => of_both(read_kind(kind.0), read_order(order.0)),
        Some(_) => None,
    }
}

// The head of this kind and this order, if both are there.
fn of_both(kind: Option<Kind>, order: Option<Order>) -> Option<Head>
    ensures { result ≡ head_named kind order }
{
    let kind = kind?;
    let order = order?;
    Some(Head { kind, order })
}

// The kind that a word names, if it names one.
fn read_kind(word: &[u8]) -> Option<Kind>
    ensures { result ≡ kind_named word.now }
{
    if word == b"pair".as_slice() {
        return Some(Kind::Pair);
    }
    if word == b"triple".as_slice() {
        return Some(Kind::Triple);
    }
    None
}

// The order that a word names, if it names one.
fn read_order(word: &[u8]) -> Option<Order>
    ensures { result ≡ order_named word.now }
{
    if word == b"up".as_slice() {
        return Some(Order::Up);
    }
    if word == b"down".as_slice() {
        return Some(Order::Down);
    }
    None
}
