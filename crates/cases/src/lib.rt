// Recorded cases: taken from a stream of bytes, with what their buffers hold at first, digests and answer lines.
#![tactic(auto)]

pub mod contents; // contents.rt: first contents, and patches
pub mod digest; // digest.rt: a number that depends on every element of a sequence
pub mod line; // line.rt: fields in base ten, parted by commas
pub mod stream; // stream.rt: a case's parts
