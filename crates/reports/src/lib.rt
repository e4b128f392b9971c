// The report lines, made as bytes in lent memory. The programs only load and write.
#![tactic(auto)]

pub mod link;
pub mod name;
