use crate::kind::Kind;
use crate::tables::Part;
use json_paths::Key;

pub static COL: [Part; 1] = [Part {
    key: Key::Col,
    kind: Kind::ColumnNumber,
}];

pub static LIT: [Part; 2] = [
    Part {
        key: Key::Lit,
        kind: Kind::LitText,
    },
    Part {
        key: Key::Type,
        kind: Kind::Type,
    },
];

pub static NULL: [Part; 1] = [Part {
    key: Key::Null,
    kind: Kind::Type,
}];

pub static CALL: [Part; 2] = [
    Part {
        key: Key::Call,
        kind: Kind::CallName,
    },
    Part {
        key: Key::Args,
        kind: Kind::Arguments,
    },
];

pub static CAST: [Part; 2] = [
    Part {
        key: Key::Cast,
        kind: Kind::Form,
    },
    Part {
        key: Key::Type,
        kind: Kind::Type,
    },
];

pub static CASE: [Part; 2] = [
    Part {
        key: Key::Case,
        kind: Kind::Branches,
    },
    Part {
        key: Key::Else,
        kind: Kind::Form,
    },
];

pub static BRANCH: [Part; 2] = [
    Part {
        key: Key::When,
        kind: Kind::Form,
    },
    Part {
        key: Key::Then,
        kind: Kind::Form,
    },
];

pub static COUNT_ALL: [Part; 1] = [Part {
    key: Key::Name,
    kind: Kind::AggregateName,
}];

pub static AGGREGATE_CALL: [Part; 2] = [
    Part {
        key: Key::Name,
        kind: Kind::AggregateName,
    },
    Part {
        key: Key::Column,
        kind: Kind::ColumnNumber,
    },
];

pub static SORT_KEY: [Part; 2] = [
    Part {
        key: Key::Column,
        kind: Kind::ColumnNumber,
    },
    Part {
        key: Key::Order,
        kind: Kind::Order,
    },
];

pub static DYNAMIC_FILTER: [Part; 5] = [
    Part {
        key: Key::Id,
        kind: Kind::FilterId,
    },
    Part {
        key: Key::Key,
        kind: Kind::PairNumber,
    },
    Part {
        key: Key::Scan,
        kind: Kind::ScanId,
    },
    Part {
        key: Key::Column,
        kind: Kind::ColumnNumber,
    },
    Part {
        key: Key::Wait,
        kind: Kind::Wait,
    },
];
