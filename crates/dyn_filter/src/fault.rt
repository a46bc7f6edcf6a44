use crate::domain::Domain;

/// Why a part's domain was not kept. It is handed back.
#[derive(Drop)]
pub enum FilterPublishFault {
    /// The part has another domain, or a thread published one in the same moment.
    Held(Domain),
    Memory(Domain),
}
