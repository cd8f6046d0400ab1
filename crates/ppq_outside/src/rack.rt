//! Who makes the blocks of a device.
ghost use Rattle.std.specs.Prelude.{◌≡◌, ℕ, List, IfOk};
ghost use Rattle.ppq_outside.specs.Told.{HasCause, IsFresh};
ghost use Rattle.ppq_outside.specs.Shown.{Tells};
ghost use Rattle.ppq_outside.specs.Made.{made_by, HasMade};

use crate::{Host, OutsideFault, Slot};
use std::alloc::Global;

/// Makes the blocks of a device.
pub trait Rack {
    type Slot: Slot;

    /// Whether every slot that it makes tells its bytes.
    ghost tells: { Self → Type 0 };

    /// Whether these are the blocks that it made of the device of this name, by number, in the order in
    /// which it made them: true of the list of all of them, and of others only as far as it keeps no
    /// account of them. No code can ask it, so a caller that is proved for every rack knows it of no list
    /// but that which its own calls make longer, and of no device after a call for another one.
    ghost made: { Self → List ℕ → List ℕ → Type 0 };

    /// How many calls failed.
    ghost faults: { Self → ℕ };

    /// How many calls failed. It stands still at its last value, 2^64 - 1.
    fn faults(&self) -> u64
        ensures { result ≡ faults self.now };

    /// A block of the device with this number and of so many bytes. `Failed` is returned only if
    /// the count of faults rose.
    fn block<H: Host>(
        &mut self,
        rt: &H,
        alloc: Global,
        device: &str,
        number: u32,
        bytes: usize,
    ) -> Result<Self::Slot, OutsideFault>
        ensures number { IfOk result (λ slot. (Self.Slot.shown slot).number ≡ number) }
        ensures size { IfOk result (λ slot. (Self.Slot.shown slot).size ≡ bytes) }
        ensures fresh { IfOk result (λ slot. IsFresh (Self.Slot.shown slot).faults (Self.Slot.shown slot).writes (Self.Slot.shown slot).reads) }
        ensures tells { IfOk result (λ slot. tells self.old → Tells (Self.Slot.shown slot)) }
        ensures made { HasMade (made self.old device.now) (made self.new device.now) (made_by result number) }
        ensures kept { tells self.old → tells self.new }
        ensures cause { HasCause (faults self.old) (faults self.new) result };
}
