// How much the engine takes and says at once.

// The most entries of a row, far more than any limit allows.
pub const LONGEST: usize = 4096;
// The most bytes of a question after its size.
pub const MOST: usize = 65536;
// The most numbers of an answer.
pub const NUMBERS: usize = 6;
// Where the question's bytes begin in the frame: before them an answer's kind, size and numbers have room.
pub const HEAD: usize = 56;
// The frame's length.
pub const FRAME: usize = HEAD + MOST;
