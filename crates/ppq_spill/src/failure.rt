//! The number of the block that failed.
ghost use Rattle.std.specs.Prelude.{◌≡◌};
ghost use Rattle.ppq_spill.specs.Latched.{latched};

use ppq_fetch::StoreFault;

/// Notes the number of a block that failed, if that is the answer. A queue, a pass and a front keep it, and each
/// later call of theirs returns it.
pub fn latch(failed: &mut Option<u32>, answer: Result<(), StoreFault>)
    ensures { failed.new ≡ latched answer failed.old }
{
    if let Err(StoreFault::Device { number }) = answer {
        *failed = Some(number);
    }
}
