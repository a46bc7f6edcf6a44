/// What the grammar of the plan document asks for at a place.
#[derive(Clone, Copy)]
pub enum Kind {
    /// The document.
    Document,
    /// Its version.
    Version,
    /// The names of the result's columns.
    ResultNames,
    ResultName,
    Tables,
    Table,
    TableName,
    Columns,
    Column,
    ColumnName,
    /// The text of a type.
    Type,
    Fragments,
    /// The fragment without an output.
    FirstFragment,
    Fragment,
    FragmentId,
    Placement,
    /// Where the rows of a fragment go.
    Output,
    OutputKind,
    HashColumns,
    /// The number of a column.
    ColumnNumber,
    Node,
    NodeId,
    Op,
    ScanTable,
    ScanColumns,
    ScanColumn,
    Types,
    Rows,
    /// A row of a values node, whose cells are no places of their own.
    Row,
    /// The fragment that a remote source reads.
    FragmentNumber,
    /// The columns of a project.
    Expressions,
    /// An expression as a whole.
    Expression,
    /// An expression within another.
    Form,
    LitText,
    CallName,
    Arguments,
    Branches,
    Branch,
    JoinKind,
    Pairs,
    /// A left and a right column of a join.
    Pair,
    Filters,
    Filter,
    FilterId,
    /// The pair of a join's `on` whose columns a filter compares.
    PairNumber,
    /// The scan that a filter is for.
    ScanId,
    Wait,
    Step,
    /// The columns by which an aggregate groups.
    GroupKeys,
    AggregateCalls,
    AggregateCall,
    AggregateName,
    SortKeys,
    SortKey,
    Order,
    Count,
}
