//! What frames mean.
ghost use Rattle.std.specs.Prelude.{◌≡◌, List, ℕ};
ghost use Rattle.ppq_frames.specs.Frames.{AreRequests, HasFirst};

/// The law of frames, as a clause for the proof of whoever calls it, and for a reader: bytes are the frames
/// of just one list of requests, where all are taken that stand there whole. It does nothing.
#[inline]
pub fn frames_mean()
    ensures { (bytes : List ℕ) (one other : List (List ℕ)) (rest waiting : List ℕ) → AreRequests bytes one rest → AreRequests bytes other waiting → ¬ HasFirst rest → ¬ HasFirst waiting → (one ≡ other) × (rest ≡ waiting) }
{}
