use crate::kind::Kind;
use json_paths::Key;

/// A key of an object, and what stands under it.
#[derive(Clone, Copy)]
pub struct Part {
    pub key: Key,
    pub kind: Kind,
}

pub static DOCUMENT: [Part; 4] = [
    Part {
        key: Key::Version,
        kind: Kind::Version,
    },
    Part {
        key: Key::Output,
        kind: Kind::ResultNames,
    },
    Part {
        key: Key::Tables,
        kind: Kind::Tables,
    },
    Part {
        key: Key::Fragments,
        kind: Kind::Fragments,
    },
];

pub static TABLE: [Part; 2] = [
    Part {
        key: Key::Name,
        kind: Kind::TableName,
    },
    Part {
        key: Key::Columns,
        kind: Kind::Columns,
    },
];

pub static COLUMN: [Part; 2] = [
    Part {
        key: Key::Name,
        kind: Kind::ColumnName,
    },
    Part {
        key: Key::Type,
        kind: Kind::Type,
    },
];

pub static FIRST_FRAGMENT: [Part; 3] = [
    Part {
        key: Key::Id,
        kind: Kind::FragmentId,
    },
    Part {
        key: Key::Placement,
        kind: Kind::Placement,
    },
    Part {
        key: Key::Root,
        kind: Kind::Node,
    },
];

pub static FRAGMENT: [Part; 4] = [
    Part {
        key: Key::Id,
        kind: Kind::FragmentId,
    },
    Part {
        key: Key::Placement,
        kind: Kind::Placement,
    },
    Part {
        key: Key::Output,
        kind: Kind::Output,
    },
    Part {
        key: Key::Root,
        kind: Kind::Node,
    },
];

pub static OUTPUT: [Part; 1] = [Part {
    key: Key::Kind,
    kind: Kind::OutputKind,
}];

pub static HASH_OUTPUT: [Part; 2] = [
    Part {
        key: Key::Kind,
        kind: Kind::OutputKind,
    },
    Part {
        key: Key::Columns,
        kind: Kind::HashColumns,
    },
];

pub static NODE: [Part; 2] = [
    Part {
        key: Key::Id,
        kind: Kind::NodeId,
    },
    Part {
        key: Key::Op,
        kind: Kind::Op,
    },
];

pub static SCAN: [Part; 4] = [
    Part {
        key: Key::Id,
        kind: Kind::NodeId,
    },
    Part {
        key: Key::Op,
        kind: Kind::Op,
    },
    Part {
        key: Key::Table,
        kind: Kind::ScanTable,
    },
    Part {
        key: Key::Columns,
        kind: Kind::ScanColumns,
    },
];

pub static VALUES: [Part; 4] = [
    Part {
        key: Key::Id,
        kind: Kind::NodeId,
    },
    Part {
        key: Key::Op,
        kind: Kind::Op,
    },
    Part {
        key: Key::Types,
        kind: Kind::Types,
    },
    Part {
        key: Key::Rows,
        kind: Kind::Rows,
    },
];

pub static REMOTE: [Part; 3] = [
    Part {
        key: Key::Id,
        kind: Kind::NodeId,
    },
    Part {
        key: Key::Op,
        kind: Kind::Op,
    },
    Part {
        key: Key::Fragment,
        kind: Kind::FragmentNumber,
    },
];

pub static FILTER: [Part; 4] = [
    Part {
        key: Key::Id,
        kind: Kind::NodeId,
    },
    Part {
        key: Key::Op,
        kind: Kind::Op,
    },
    Part {
        key: Key::Predicate,
        kind: Kind::Expression,
    },
    Part {
        key: Key::Input,
        kind: Kind::Node,
    },
];

pub static PROJECT: [Part; 4] = [
    Part {
        key: Key::Id,
        kind: Kind::NodeId,
    },
    Part {
        key: Key::Op,
        kind: Kind::Op,
    },
    Part {
        key: Key::Columns,
        kind: Kind::Expressions,
    },
    Part {
        key: Key::Input,
        kind: Kind::Node,
    },
];

pub static JOIN: [Part; 6] = [
    Part {
        key: Key::Id,
        kind: Kind::NodeId,
    },
    Part {
        key: Key::Op,
        kind: Kind::Op,
    },
    Part {
        key: Key::Kind,
        kind: Kind::JoinKind,
    },
    Part {
        key: Key::On,
        kind: Kind::Pairs,
    },
    Part {
        key: Key::Left,
        kind: Kind::Node,
    },
    Part {
        key: Key::Right,
        kind: Kind::Node,
    },
];

pub static FILTERED_JOIN: [Part; 7] = [
    Part {
        key: Key::Id,
        kind: Kind::NodeId,
    },
    Part {
        key: Key::Op,
        kind: Kind::Op,
    },
    Part {
        key: Key::Kind,
        kind: Kind::JoinKind,
    },
    Part {
        key: Key::On,
        kind: Kind::Pairs,
    },
    Part {
        key: Key::Left,
        kind: Kind::Node,
    },
    Part {
        key: Key::Right,
        kind: Kind::Node,
    },
    Part {
        key: Key::Filters,
        kind: Kind::Filters,
    },
];

pub static STEP: [Part; 4] = [
    Part {
        key: Key::Id,
        kind: Kind::NodeId,
    },
    Part {
        key: Key::Op,
        kind: Kind::Op,
    },
    Part {
        key: Key::Step,
        kind: Kind::Step,
    },
    Part {
        key: Key::Input,
        kind: Kind::Node,
    },
];

pub static AGGREGATE: [Part; 6] = [
    Part {
        key: Key::Id,
        kind: Kind::NodeId,
    },
    Part {
        key: Key::Op,
        kind: Kind::Op,
    },
    Part {
        key: Key::Step,
        kind: Kind::Step,
    },
    Part {
        key: Key::Keys,
        kind: Kind::GroupKeys,
    },
    Part {
        key: Key::Calls,
        kind: Kind::AggregateCalls,
    },
    Part {
        key: Key::Input,
        kind: Kind::Node,
    },
];

pub static SORT: [Part; 4] = [
    Part {
        key: Key::Id,
        kind: Kind::NodeId,
    },
    Part {
        key: Key::Op,
        kind: Kind::Op,
    },
    Part {
        key: Key::Keys,
        kind: Kind::SortKeys,
    },
    Part {
        key: Key::Input,
        kind: Kind::Node,
    },
];

pub static TOPN: [Part; 6] = [
    Part {
        key: Key::Id,
        kind: Kind::NodeId,
    },
    Part {
        key: Key::Op,
        kind: Kind::Op,
    },
    Part {
        key: Key::Step,
        kind: Kind::Step,
    },
    Part {
        key: Key::Count,
        kind: Kind::Count,
    },
    Part {
        key: Key::Keys,
        kind: Kind::SortKeys,
    },
    Part {
        key: Key::Input,
        kind: Kind::Node,
    },
];

pub static LIMIT: [Part; 5] = [
    Part {
        key: Key::Id,
        kind: Kind::NodeId,
    },
    Part {
        key: Key::Op,
        kind: Kind::Op,
    },
    Part {
        key: Key::Step,
        kind: Kind::Step,
    },
    Part {
        key: Key::Count,
        kind: Kind::Count,
    },
    Part {
        key: Key::Input,
        kind: Kind::Node,
    },
];

pub static UNION: [Part; 4] = [
    Part {
        key: Key::Id,
        kind: Kind::NodeId,
    },
    Part {
        key: Key::Op,
        kind: Kind::Op,
    },
    Part {
        key: Key::Left,
        kind: Kind::Node,
    },
    Part {
        key: Key::Right,
        kind: Kind::Node,
    },
];
