//! A refused acquisition.
use super::Acquisition;

/// An acquisition that the state refused. Only `join` lets it look again.
pub(crate) struct Refused {
    pub(super) acquisition: Acquisition,
}
