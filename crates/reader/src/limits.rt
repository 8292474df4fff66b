// The limits of a sheet (document 01, "The sheet").

// The most bytes of a sheet.
pub const BYTES: usize = 1024;

// The most facts of a sheet, and the most replies of a probe.
pub const FACTS: usize = 8;

pub const REPLIES: usize = 8;

// The deepest level of a formula.
pub const DEPTH: usize = 16;

// The most action nodes and branch nodes of a program.
pub const ACTION_NODES: usize = 64;

pub const BRANCH_NODES: usize = 63;

// The levels that a program may have: one for each of its nodes, and one for an end.
pub(crate) const LEVELS: usize = ACTION_NODES + BRANCH_NODES + 1;
