//! The numbers of a refusal.

/// What a refusal tells, by its number; what it doesn't tell is 0.
#[repr(C)]
#[derive(Clone, Copy)]
pub struct VmbusFault {
    /// How many bytes or words there are.
    pub have: u32,
    /// How many are needed.
    pub need: u32,
    /// Which field is wrong.
    pub field: u32,
    /// Its value, or a type that is unknown.
    pub value: u64,
}
