// The leaves that a vector can be put to.

#[derive(Clone, Copy)]
pub enum Leaf {
    AndMaskToType,
    Keep,
    AddKept,
    Add,
    PowerOfTwo,
    ReadMultiplier,
    IsRangeBound,
    Equal,
    IsZero,
    IsMax,
    EqualsNumber,
    BelowNumber,
    Opcode,
    GuardFailurePc,
    IsEmptyRevertGuard,
    IsDivisionCheck,
    DirectWords,
    DenseWords,
}

// The number of a kind that is no leaf's.
#[derive(Clone, Copy)]
pub struct NoSuchKind(pub u8);

// By the numbers of tools/leaf_vectors.py.
impl TryFrom<u8> for Leaf {
    type Error = NoSuchKind;

    fn try_from(kind: u8) -> Result<Leaf, NoSuchKind> {
        Ok(match kind {
            1 => Leaf::AndMaskToType,
            2 => Leaf::Keep,
            3 => Leaf::AddKept,
            4 => Leaf::Add,
            5 => Leaf::PowerOfTwo,
            6 => Leaf::ReadMultiplier,
            7 => Leaf::IsRangeBound,
            8 => Leaf::Equal,
            9 => Leaf::IsZero,
            10 => Leaf::IsMax,
            11 => Leaf::EqualsNumber,
            12 => Leaf::BelowNumber,
            20 => Leaf::Opcode,
            21 => Leaf::GuardFailurePc,
            22 => Leaf::IsEmptyRevertGuard,
            23 => Leaf::IsDivisionCheck,
            24 => Leaf::DirectWords,
            25 => Leaf::DenseWords,
            _ => return Err(NoSuchKind(kind)),
        })
    }
}
