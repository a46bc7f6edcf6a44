/// Which rows of the left side a join gives.
#[derive(Clone, Copy, Debug, PartialEq, Eq)]
pub enum JoinKind {
    /// Those with a partner.
    Inner,
    /// All; one without a partner beside nulls.
    Left,
}

/// A call of an aggregate. Each but `CountAll` names a column of the rows.
#[derive(Clone, Copy, Debug, PartialEq, Eq)]
pub enum Call {
    /// How many rows there are.
    CountAll,
    /// How many values are not NULL.
    Count(u32),
    Sum(u32),
    Min(u32),
    Max(u32),
    Avg(u32),
}
