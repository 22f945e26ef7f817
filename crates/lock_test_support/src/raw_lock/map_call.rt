//! The maps of a guard.

/// A map of a guard to a part, or to the item of a pair at an index. A mapped guard is dropped, but for `MapEnd`.
#[derive(Clone, Copy)]
pub enum MapCall {
    Map,
    MapEnd,
    TryMap(usize),
    TryMapOrErr(usize),
}

/// Maps to an item that is there, and to one that is not.
pub const MAPS: [MapCall; 6] = [
    MapCall::Map,
    MapCall::MapEnd,
    MapCall::TryMap(1),
    MapCall::TryMapOrErr(1),
    MapCall::TryMap(2),
    MapCall::TryMapOrErr(2),
];
