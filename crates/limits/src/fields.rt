// The places of a record's numbers: "key, parent, child, next, seen, not-bool, blocked, kind, count, name, confidence".
pub const KEY: usize = 0;

pub const PARENT: usize = 1;

pub const CHILD: usize = 2;

pub const NEXT: usize = 3;

pub const SEEN: usize = 4;

pub const NOT_BOOL: usize = 5;

pub const BLOCKED: usize = 6;

pub const KIND: usize = 7;

pub const COUNT: usize = 8;

pub const NAME: usize = 9;

pub const CONFIDENCE: usize = 10;
