//! The raw calls of one open file.
ghost use Rattle.std.specs.Prelude.{◌≡◌, ◌<◌, ◌≤◌, ℕ, List, [], ◌∷◌, IfOk, OnOk, OnErr, length, take};
ghost use Rattle.ppq_raw.specs.Calls.{Call, Asked, Locked, Cut, Read, Wrote, HasCalled};
ghost use Rattle.ppq_raw.specs.Transfers.{Keeps, Writes, GivesSome};

use crate::FileData;
use ppq_outside::Failed;
use std::alloc::AllocError;

/// One open file of a machine, by its raw calls. A transfer may move fewer bytes than it was asked for.
///
/// No code can ask what it holds or which calls were made of it. So a caller that is proved for every such file
/// knows of both only what the contracts of its own calls say: no byte was written and no call was made but by it.
pub trait RawFile: Drop {
    /// Whether it holds these bytes: true of those that it holds, unless it keeps no account of them, as a file
    /// that others write too.
    ghost holds: { Self → List ℕ → Type 0 };

    /// Whether these calls were made of it, in this order: true of the list of all of them, and of others only as
    /// far as it keeps no account of them.
    ghost called: { Self → List Call → Type 0 };

    /// Whether a transfer of it was refused: it failed, or moved none of some bytes.
    ghost refused: { Self → Type 0 };

    /// What the machine says of it.
    fn about(&mut self) -> Result<FileData, Failed>
        ensures called { HasCalled (called self.old) (called self.new) (Asked result ∷ []) }
        ensures keeps { Keeps (holds self.old) (holds self.new) };

    /// Locks it for this handle and those that are shared with it. Returns false if another one has it, and true
    /// if it is locked now, or its file system has no locks.
    fn lock(&mut self) -> bool
        ensures called { HasCalled (called self.old) (called self.new) (Locked result ∷ []) }
        ensures keeps { Keeps (holds self.old) (holds self.new) };

    /// Cuts it to length 0.
    fn cut(&mut self) -> Result<(), Failed>
        ensures called { HasCalled (called self.old) (called self.new) (Cut result ∷ []) }
        ensures empty { OnOk result ((file : List ℕ) → holds self.old file → holds self.new []) };

    /// Copies bytes from offset `at` on over the first bytes of `into`, and returns their number: 0 only at or past
    /// the end of the file, or if `into` is empty. After an `Err` nothing is known of `into`.
    fn read_at(&mut self, at: u64, into: &mut [u8]) -> Result<usize, Failed>
        ensures bound { IfOk result (λ count. count ≤ length into.new) }
        ensures gives { IfOk result (λ count. GivesSome (holds self.old) at (length into.new) (take count into.new)) }
        ensures none { IfOk result (λ count. count ≡ 0 → 0 < length into.new → refused self.new) }
        ensures keeps { Keeps (holds self.old) (holds self.new) }
        ensures called { HasCalled (called self.old) (called self.new) (Read ∷ []) }
        ensures refused { OnErr result (refused self.new) };

    /// Writes the first bytes of `bytes` at offset `at`, and returns their number. After an `Err` nothing is known of
    /// what the file holds.
    fn write_at(&mut self, at: u64, bytes: &[u8]) -> Result<usize, Failed>
        ensures bound { IfOk result (λ count. count ≤ length bytes.now) }
        ensures writes { IfOk result (λ count. Writes (holds self.old) (holds self.new) at (take count bytes.now)) }
        ensures none { IfOk result (λ count. count ≡ 0 → 0 < length bytes.now → refused self.new) }
        ensures called { HasCalled (called self.old) (called self.new) (Wrote ∷ []) }
        ensures refused { OnErr result (refused self.new) };

    /// One more handle of the same file.
    fn share(&self) -> Result<Self, AllocError>
    where
        Self: Sized;
}
