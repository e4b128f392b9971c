// Little-endian words and runs of bytes in lent memory. Every public function is total.
#![tactic(auto)]

pub mod load;
pub mod same;
pub mod store;
