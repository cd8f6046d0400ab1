//! How a device takes its file.
ghost use Rattle.ppq_raw.specs.Claims.{Claims, Takes};

use crate::file_numbers::is_among;
use crate::{FileNumbers, NamedFiles, RawFile};
use ppq_outside::Failed;

// Locks a plain file, and then cuts it. One that another device has is left as it is.
#[tactic(auto, using(crate::proofs::Claimed::cut_takes, crate::proofs::Claimed::left_takes))]
fn take_plain<F: RawFile>(file: &mut F) -> Result<(), Failed>
    ensures { Takes (F.called file.old) (F.called file.new) result }
{
    if file.lock() { file.cut() } else { Err(Failed) }
}

/// Takes an open file for a device: one of the spared ones is refused, and a plain file is locked and then cut to
/// length 0. What is no plain file, as /dev/full, is not locked, and has no length.
///
/// The calls that it makes are those that this says, in this order, and no others: so a file that is refused is left
/// as it is.
#[tactic(auto, using(crate::proofs::Claimed::silent_claims, crate::proofs::Claimed::spared_claims, crate::proofs::Claimed::taken_claims, crate::proofs::Claimed::left_claims))]
pub fn claim<F: RawFile>(file: &mut F, spared: &[FileNumbers]) -> Result<(), Failed>
    ensures { Claims spared.now (F.called file.old) (F.called file.new) result }
{
    let said = match file.about() {
        Ok(said) => said,
        Err(fault) => return Err(fault),
    };
    if is_among(spared, said.numbers) {
        return Err(Failed);
    }
    if said.is_plain {
        take_plain(file)
    } else {
        Ok(())
    }
}

// The same, with the files of a list as spared ones, if there is a list.
pub(crate) fn claim_sparing<F: RawFile>(
    file: &mut F,
    spared: Option<&NamedFiles>,
) -> Result<(), Failed> {
    let Some(named) = spared else {
        return claim(file, &[]);
    };
    let files = named.take();
    let claimed = match &files {
        Some(files) => claim(file, files),
        None => claim(file, &[]),
    };
    named.put_back(files);
    claimed
}
