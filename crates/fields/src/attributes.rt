// The attributes of a vertex by their numbers, in document 01's order: 0 is the position matrix, 1 to 8 are the texture matrices, and then
// those below. They are numbers and no enum, since public functions answer for every number, 19 for one above 20, and arrays are indexed by
// them.
pub const POSITION: usize = 9;

pub const NORMAL: usize = 10;

pub const COLOUR0: usize = 11;

pub const COLOUR1: usize = 12;

pub const TEXTURE0: usize = 13;

pub const TEXTURE1: usize = 14;

pub const TEXTURE2: usize = 15;

pub const TEXTURE3: usize = 16;

pub const TEXTURE4: usize = 17;

pub const TEXTURE5: usize = 18;

pub const TEXTURE6: usize = 19;

pub const TEXTURE7: usize = 20;

// How many there are.
pub const COUNT: usize = 21;
