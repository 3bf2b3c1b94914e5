// What a step does to the facts, as data: the operations of the Rust's `ArgsResult`, under its names. A step is a short
// list of them; specs/Run.antt has what each does.
#![tactic(auto)]

mod room;
mod running;

pub use room::has_room;
pub use running::{make_dynamic, run};

// A path is a record's number and the key at its end, as the Rust's `path` and `offset`.
#[derive(Clone, Copy, Debug, PartialEq, Eq)]
pub enum Operation {
    Nothing,
    // path, offset, and whether new range names are blocked too
    ClearRangeHint(u32, u32, bool),
    ClearRangeHints,
    // path, offset
    MarkNotBool(u32, u32),
    InsertNotBool(u32, u32),
    GetOrCreate(u32, u32),
    // path, offset, name, confidence
    SetTname(u32, u32, u32, u32),
    // `set_info`: path, offset, count
    SetDynamic(u32, u32, u32),
    // `set_info`: a record, count
    SetArray(u32, u32),
}

// The path that an operation makes, if it is not there: the record that it continues and its last key.
#[derive(Clone, Copy, Debug, PartialEq, Eq)]
pub struct FullPath {
    pub path: u32,
    pub offset: u32,
}
