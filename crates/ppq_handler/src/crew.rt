//! Who answers a round.
ghost use Rattle.std.specs.Prelude.{◌<◌, ◌^◌};

/// The workers who answer a round.
#[derive(Drop)]
pub struct Crew<'a, H, G> {
    /// The runtime that starts their threads.
    pub rt: &'a H,
    /// The gate that each of them enters.
    pub gate: &'a G,
    /// How many they are, one at least.
    pub workers: u32,
    /// How many events a round has at least that they share.
    pub least: usize,

    ghost some: { (0 < workers) × (workers < 2 ^ 32) },
}
