use sql_values::Places;

/// How the rows of a node are spread over the tasks of its fragment.
#[derive(Drop)]
pub enum RowSpread {
    /// There is one task.
    Whole,
    /// Each row is in one task.
    Any,
    /// Each row is in the task that is the bucket of these columns.
    By(Places),
    /// Each task has all rows.
    Every,
}
