// The operations, by what they are handed.

// A path that is there or not, by its parent's record and its key.
#[derive(Clone, Copy)]
pub struct Child {
    pub parent: u32,
    pub key: u32,
}

// What changes nothing.
#[derive(Clone, Copy)]
pub enum Question {
    FindChild,
    Missing,
    HasRangeHint,
}

// What may add the path.
#[derive(Clone, Copy)]
pub enum Change {
    InsertChild,
    EnsureChild,
    GetOrCreate,
    SetTname { name: u32, confidence: u32 },
    MarkNotBool,
    InsertNotBool,
}

// What is done at a record.
#[derive(Clone, Copy)]
pub enum Visit {
    MakeSeen,
    SetDynamic { count: u32 },
    SetArray { count: u32 },
    ArraysInPath,
}

#[derive(Clone, Copy)]
pub enum Operation {
    Ask(Question, Child),
    Change(Change, Child),
    ClearRangeHint(Child, u32),
    Visit(Visit, u32),
    Fill(u32),
    FillMissing(u32),
}

// An entry is the operation's number and its arguments. What has no number of its own is the last question of its kind.
impl From<[u32; 6]> for Operation {
    fn from(entry: [u32; 6]) -> Operation {
        let [number, a, b, c, d, _] = entry;
        let child = Child { parent: a, key: b };
        let tname = Change::SetTname {
            name: c,
            confidence: d,
        };
        match number {
            1 => Operation::Ask(Question::FindChild, child),
            2 => Operation::Ask(Question::Missing, child),
            0 | 3 => Operation::Ask(Question::HasRangeHint, child),
            4 => Operation::Change(Change::InsertChild, child),
            5 => Operation::Change(Change::EnsureChild, child),
            6 => Operation::Change(Change::GetOrCreate, child),
            7 => Operation::Change(tname, child),
            8 => Operation::Change(Change::MarkNotBool, child),
            9 => Operation::Change(Change::InsertNotBool, child),
            10 => Operation::ClearRangeHint(child, c),
            11 => Operation::Visit(Visit::MakeSeen, a),
            12 => Operation::Visit(Visit::SetDynamic { count: b }, a),
            13 => Operation::Visit(Visit::SetArray { count: b }, a),
            14 => Operation::Visit(Visit::ArraysInPath, a),
            15 => Operation::Fill(a),
            _ => Operation::FillMissing(a),
        }
    }
}
