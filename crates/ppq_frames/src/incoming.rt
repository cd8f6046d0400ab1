//! Frames that come from a source.
ghost use Rattle.std.specs.Prelude.{◌≡◌, ◌≤◌, ◌<◌, [], ◌∷◌, ◌++◌, List, ℕ, Option, length, All, IfOk, OnErr};
ghost use Rattle.ppq_outside.specs.Told.{HasOneCause};
ghost use Rattle.ppq_frames.specs.Frames.{BeginsWith, HasFirst, IsPart, AreRequests, Came, IsFilled, announced, first_request, behind_first, frame_length};

use crate::buffer::Buffer;
use crate::{Filled, Found};
use ppq_outside::{Failed, Host, Memory, Source};
use std::alloc::Global;
use std::marker::Model;

// The most bytes that a request may have, and those of its length.
const LONGEST: usize = 4_194_304;

const NAMED: usize = 4;

/// The bytes that came from a source and wait to be taken, frame by frame.
///
/// Contracts see these bytes. Its memory, 4,194,308 bytes, is that of the longest frame, and is allocated
/// once.
#[derive(Drop)]
pub struct Incoming {
    buffer: Buffer,
}

impl Model for Incoming {
    ghost use Rattle.std.specs.Prelude.{List, ℕ};

    ghost Value = { List ℕ };

    ghost view = { λ s. s.buffer.waiting };
}

// How many bytes follow the first four, as these say.
fn announced(waiting: &[u8]) -> usize
    requires { 4 ≤ length waiting.now }
    ensures { result ≡ announced waiting.now }
{
    u32::from_be_bytes([waiting[0], waiting[1], waiting[2], waiting[3]]) as usize
}

// How many bytes the frame has that these begin with, as far as they say.
fn frame_length(waiting: &[u8]) -> usize
    ensures { result ≡ frame_length waiting.now }
{
    if waiting.len() < NAMED {
        NAMED
    } else {
        NAMED + announced(waiting)
    }
}

// Does nothing; it promises that bytes are bytes.
fn known_bytes(bytes: &[u8])
    ensures { All (λ byte. byte < 256) bytes.now }
{
    let _length = bytes.len();
}

impl Incoming {
    /// Nothing came so far. Returns `Memory` only if its one allocation fails.
    pub fn new(alloc: Global) -> Result<Incoming, Memory>
        ensures { IfOk result (λ incoming. incoming ≡ []) }
    {
        let buffer = Buffer::new(alloc)?;
        Ok(Incoming { buffer })
    }

    /// What the bytes that wait begin with. The request is borrowed: it stands here until `skip`. Looks at
    /// four bytes.
    pub fn first(&self) -> Found<'_>
        ensures { BeginsWith self.now result }
    {
        let waiting = self.buffer.waiting();
        if waiting.len() < NAMED {
            return Found::Part;
        }
        let count = announced(waiting);
        if count > LONGEST {
            return Found::TooLong;
        }
        if waiting.len() - NAMED < count {
            return Found::Part;
        }
        Found::Request {
            request: &waiting[NAMED..NAMED + count],
        }
    }

    /// Takes the frame that stands first. Moves nothing.
    pub fn skip(&mut self)
        requires { HasFirst self.old }
        ensures rest { self.new ≡ behind_first self.old }
        // Its request is the next of those that came.
        ensures next { (bytes : List ℕ) (requests : List (List ℕ)) → AreRequests bytes requests self.old → AreRequests bytes (requests ++ first_request self.old ∷ []) self.new }
    {
        let waiting = self.buffer.waiting();
        known_bytes(waiting);
        let count = announced(waiting);
        self.buffer.skip(NAMED + count);
    }

    /// Asks the source once for more bytes, and says whether some came. It may wait for whoever writes them,
    /// forever.
    ///
    /// It asks for as many as there is room for. What waits is moved only if its frame has no room behind it:
    /// that is once a frame at the most, however many pieces it comes in.
    pub fn fill<H: Host, I: Source>(&mut self, rt: &H, source: &mut I) -> Result<Filled, Failed>
        requires { IsPart self.old }
        ensures filled { IfOk result (IsFilled (I.over source.new) self.old self.new) }
        ensures came { (told : Option (List ℕ)) (requests : List (List ℕ)) → Came told (I.told source.old) (I.gave source.old) requests self.old → Came told (I.told source.new) (I.gave source.new) requests self.new }
        ensures same { OnErr result (self.new ≡ self.old) }
        ensures cause { HasOneCause (I.faults source.old) (I.faults source.new) result }
    {
        let frame = frame_length(self.buffer.waiting());
        self.buffer.make_room(frame);
        if self.buffer.read(rt, source)? > 0 {
            return Ok(Filled::More);
        }
        Ok(if self.buffer.waiting().is_empty() {
            Filled::End
        } else {
            Filled::CutOff
        })
    }
}
