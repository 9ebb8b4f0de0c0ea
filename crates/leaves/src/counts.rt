// Where the counts that stand above a node are, among the bytes above it: a byte for each period, the upper ones 0 for none and else one
// more than the count, the lower ones the count itself.

pub const UPPER: usize = 1536;

pub const LOWER: usize = 1584;
