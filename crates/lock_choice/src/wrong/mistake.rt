//! What a raw lock does wrong.

/// A mistake of a raw lock. One thread sees each of them.
#[derive(Clone, Copy, PartialEq, Eq, Debug)]
pub enum Mistake {
    /// It admits one reader too many, if it is made with one more.
    ExtraReader,
    /// It upgrades while there are readers.
    UpgradeAmongReaders,
    /// A refused try for a writer leaves a reader behind.
    RefusalAdmits,
    /// A plain release keeps the token.
    KeptToken,
    /// A fair release keeps the token.
    FairKeptToken,
    /// A bump of an exclusive token is only a release, and one of a shared token only an acquisition.
    HalfBump,
    /// A timed try is refused.
    TimedRefusal,
}
