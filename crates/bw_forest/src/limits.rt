/// How many trees a forest has at most.
pub const MAX_TREES: u32 = 1024;
