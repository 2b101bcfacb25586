//! What a seat tells of its end. No value of it is made.
use ring_machine::EndState;

/// The state of an end after its last step, and how many word steps it has made: in all, those that raised its peer's signal, and those that found its
/// own signal up and took it. In contracts no count has a bound.
pub struct Told {
    /// The state.
    pub state: EndState,
    /// All steps.
    pub steps: u64,
    /// The raises.
    pub raised: u64,
    /// The wakes.
    pub woke: u64,
}
