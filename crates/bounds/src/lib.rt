// What one cycle of a state can do to registers that are known within bounds.
#![tactic(auto)]

pub mod rules; // rules.rt: what a wire can give, by code
pub mod cycle; // cycle.rt: one cycle over ranges
pub mod operation; // operation.rt: the operation on two register buffers

// All words from a lowest to a highest, in signed order.
#[derive(Clone, Copy, Debug, PartialEq, Eq)]
pub struct Range {
    pub low: u32,
    pub high: u32,
}
