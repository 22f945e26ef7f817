//! The rule of the owner word and of the slot with the levels, and the kinds of step.
use atomic_table::{Play, TableRule};
use lock_modes::Levels;
use std::marker::PhantomData;

/// The fact that the token of an owner meets.
pub trait TokenRule<K, T> {
    ghost fits: { K → T → Type 0 };
}

/// What a table is told once: the key that its tokens fit, and the limit of levels.
#[derive(Drop)]
pub struct OwnerKey<K> {
    pub raw: K,
    pub limit: u64,
}

/// The last step of a call. It exists in contracts only.
pub enum OwnerStep<T> {
    /// The call has made none.
    Start,
    /// It found this word, and changed nothing.
    Saw(u64),
    /// It took these levels, which no other call reads or changes meanwhile.
    Took(Levels<T>),
    /// It found the lock at the first levels, and left it at the second.
    Made(Levels<T>, Levels<T>),
}

/// What a call knows of the table. It exists in contracts only.
pub struct OwnerView<K, T> {
    /// A step cannot see the key of its table.
    pub key: OwnerKey<K>,
    pub step: OwnerStep<T>,
}

/// The rule of the table.
pub struct OwnerRule<P> {
    rule: PhantomData<P>,
}

impl<K, T, P: TokenRule<K, T>> TableRule<Option<Levels<T>>, OwnerView<K, T>, OwnerKey<K>>
    for OwnerRule<P> {
    ghost use Rattle.lock_remutex.specs.OwnerTables.{IsOwnerTable, newcomer};

    ghost holds = { IsOwnerTable P.fits };

    ghost first = { newcomer };
}

/// A load of the owner word.
pub(super) struct LookAtOwner;

impl<K, T> Play<Option<Levels<T>>, OwnerView<K, T>> for LookAtOwner {
    ghost use Rattle.lock_remutex.specs.OwnerTables.{Looks};

    ghost then = { Looks };
}

/// An exchange of the owner word that changes the owner's levels.
pub(super) struct Recount<P> {
    rule: PhantomData<P>,
}

impl<K, T, P: TokenRule<K, T>> Play<Option<Levels<T>>, OwnerView<K, T>> for Recount<P> {
    ghost use Rattle.lock_remutex.specs.OwnerTables.{Recounts};

    ghost then = { Recounts P.fits };
}

/// An exchange of the owner word that takes the levels.
pub(super) struct TakeLevels<P> {
    rule: PhantomData<P>,
}

impl<K, T, P: TokenRule<K, T>> Play<Option<Levels<T>>, OwnerView<K, T>> for TakeLevels<P> {
    ghost use Rattle.lock_remutex.specs.OwnerTables.{Takes};

    ghost then = { Takes P.fits };
}

/// A swap of the owner word that puts the levels back.
pub(super) struct PutLevels;

impl<K, T> Play<Option<Levels<T>>, OwnerView<K, T>> for PutLevels {
    ghost use Rattle.lock_remutex.specs.OwnerTables.{Puts};

    ghost then = { λ s. Puts };
}
