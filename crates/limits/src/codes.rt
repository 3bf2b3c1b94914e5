// "Names and type codes". 0 stands for no name. Numbers and no enum: a record and the list that C gets hold them, and
// uint, int, fixed bytes and tuple have numbers added.
pub const NO_NAME: u32 = 0;

pub const BOOL: u32 = 1;

pub const ADDRESS: u32 = 2;

pub const BYTES: u32 = 3;

pub const STRING: u32 = 4;

// An array; its element follows.
pub const ARRAY: u32 = 5;

// uint and int with their bits added, fixed bytes with their bytes added.
pub const UINT: u32 = 1000;

pub const INT: u32 = 2000;

pub const FIXED_BYTES: u32 = 3000;

// A tuple with the number of its types added; they follow.
pub const TUPLE: u32 = 16384;
