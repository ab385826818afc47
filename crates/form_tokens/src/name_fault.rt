//! Why a table of names refuses one.
/// Why a name is not added.
#[derive(Clone, Copy, Debug, PartialEq, Eq)]
pub enum NameFault {
    /// It is no word of at most 64 bytes, or it is reserved.
    Bad,
    /// It is in the table.
    Twice,
    /// 32 names are in the table.
    TooMany,
    /// There is no memory for it.
    Memory,
}
