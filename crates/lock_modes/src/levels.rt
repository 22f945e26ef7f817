//! The levels of a reentrant lock.
use crate::{Fault, MAX_LIMIT, PartyId, is_limit};
use std::marker::Model;
use std::mem;

/// The limit of levels of a lock that is made without one.
pub const DEFAULT_LEVELS: u64 = MAX_LIMIT;

/// The owner of a reentrant lock, the number of its levels, and its token of the raw lock.
#[derive(Drop)]
pub struct Levels<K> {
    limit: u64,
    owner: Option<Owner<K>>,
}

#[derive(Drop)]
struct Owner<K> {
    party: PartyId,
    count: u64,
    token: K,
}

impl<K> Model for Levels<K> {
    ghost use Rattle.std.specs.Prelude.{◌<◌, ◌≤◌, IfSome};
    ghost use Rattle.std.specs.Option.{option_map};
    ghost use Rattle.lock_modes.specs.Limits.{IsLimit};
    ghost use Rattle.lock_modes.specs.Party.{id_of};
    ghost use Rattle.lock_modes.specs.Levels as levels;

    ghost Value = { levels.Levels K };

    ghost view = { λ l. record {
      limit = l.limit;
      owner = option_map (λ o. record { party = id_of o.party; count = o.count; token = o.token }) l.owner;
    } };

    ghost invariant = { λ l. IsLimit l.limit × IfSome l.owner (λ o. (0 < o.count) × (o.count ≤ l.limit)) };
}

impl<K> Default for Levels<K> {
    ghost use Rattle.std.specs.Prelude.{◌≡◌};
    ghost use Rattle.lock_modes.specs.Levels.{free_levels};
    ghost use Rattle.lock_modes.specs.declared.levels.TheConstants.{DEFAULT_LEVELS};

    ghost is_default = { λ levels. levels ≡ free_levels DEFAULT_LEVELS };

    fn default() -> Self {
        Levels {
            limit: DEFAULT_LEVELS,
            owner: None,
        }
    }
}

impl<K> Levels<K> {
    ghost use Rattle.std.specs.Prelude.{◌≡◌, ◌<◌, ◌≤◌, ◌↔◌, None, Some, IsTrue, IsOk, IsErr, IsSome, IsNone, IfOk, IfErr, IfSome, IfNone, ◌==◌};
    ghost use Rattle.std.specs.Bool.{MatchBool};
    ghost use Rattle.lock_modes.specs.Limits.{IsLimit};
    ghost use Rattle.lock_modes.specs.Party.{id_of};
    ghost use Rattle.lock_modes.specs.Levels.{IsLawful, GainsLevel, LosesLevel, GivesTokenBack, free_levels, with_owner, at_level, level_of, token_of};

    /// Makes the levels of a lock without an owner.
    ///
    /// # Errors
    ///
    /// `BadLimits` if `levels` is out of range.
    pub fn new(levels: u64) -> Result<Self, Fault>
        ensures range { IsOk result ↔ IsLimit levels }
        ensures made { IfOk result (λ made. made ≡ free_levels levels) }
        ensures fault { IfErr result (λ fault. fault ≡ Fault.BadLimits) }
    {
        if !is_limit(levels) {
            return Err(Fault::BadLimits);
        }
        Ok(Levels {
            limit: levels,
            owner: None,
        })
    }

    /// Returns the levels of a party: 0 unless it is the owner.
    pub fn level(&self, party: PartyId) -> u64
        ensures level { result ≡ level_of self.now (id_of party) }
        ensures lawful { IsLawful self.now }
    {
        match &self.owner {
            Some(owner) if owner.party == party => owner.count,
            _ => 0,
        }
    }

    /// Returns whether the party has as many levels as the limit.
    pub fn is_full(&self, party: PartyId) -> bool
        ensures { result ≡ (level_of self.now (id_of party) == self.now.limit) }
    {
        self.level(party) == self.limit
    }

    /// Returns whether there is an owner.
    pub fn is_owned(&self) -> bool
        ensures owned { IsTrue result ↔ IsSome self.now.owner }
        ensures lawful { IsLawful self.now }
    {
        self.owner.is_some()
    }

    /// Adds a level if the party is the owner, or answers false.
    pub fn again(&mut self, party: PartyId) -> Result<bool, Fault>
        ensures full { IsErr result ↔ (level_of self.old (id_of party) ≡ self.old.limit) }
        ensures fault { IfErr result (λ fault. (fault ≡ Fault.FullCount) × (self.new ≡ self.old)) }
        ensures more { IfOk result (λ more. MatchBool more
            (GainsLevel self.old self.new (id_of party))
            ((level_of self.old (id_of party) ≡ 0) × (self.new ≡ self.old))) }
    {
        let level = self.level(party);
        if level == 0 {
            return Ok(false);
        }
        if level == self.limit {
            return Err(Fault::FullCount);
        }
        self.set_level(level + 1);
        Ok(true)
    }

    /// Makes the party the owner at level 1, or returns the token if there is an owner.
    pub fn first(&mut self, party: PartyId, token: K) -> Option<K>
        ensures taken { IfNone result
            (IsNone self.old.owner × (self.new ≡ with_owner self.old (id_of party) token)) }
        ensures back { IfSome result (λ back. IsSome self.old.owner × (back ≡ token) × (self.new ≡ self.old)) }
    {
        if self.is_owned() {
            return Some(token);
        }
        self.put(Owner {
            party,
            count: 1,
            token,
        });
        None
    }

    /// Removes one level of the owner, and returns the token with the last level.
    pub fn leave(&mut self, party: PartyId) -> Result<Option<K>, Fault>
        ensures owner { IsOk result ↔ (0 < level_of self.old (id_of party)) }
        ensures fault { IfErr result (λ fault. (fault ≡ Fault.Foreign) × (self.new ≡ self.old)) }
        ensures less { IfOk result (λ token. IfNone token (LosesLevel self.old self.new (id_of party))) }
        ensures last { IfOk result (λ token. IfSome token (GivesTokenBack self.old self.new (id_of party))) }
    {
        let level = self.level(party);
        if level == 0 {
            return Err(Fault::Foreign);
        }
        if level == 1 {
            return Ok(self.free());
        }
        self.set_level(level - 1);
        Ok(None)
    }

    /// `leave` if the party has one level. With more levels it changes nothing.
    pub fn leave_sole(&mut self, party: PartyId) -> Result<Option<K>, Fault>
        ensures owner { IsOk result ↔ (0 < level_of self.old (id_of party)) }
        ensures fault { IfErr result (λ fault. (fault ≡ Fault.Foreign) × (self.new ≡ self.old)) }
        ensures kept { IfOk result (λ token.
            IfNone token ((1 < level_of self.old (id_of party)) × (self.new ≡ self.old))) }
        ensures sole { IfOk result (λ token. IfSome token (GivesTokenBack self.old self.new (id_of party))) }
    {
        if self.level(party) > 1 {
            return Ok(None);
        }
        self.leave(party)
    }

    fn set_level(&mut self, level: u64)
        requires { (0 < level) × (level ≤ self.old.limit) }
        ensures { self.new ≡ at_level self.old level }
    {
        if let Some(owner) = self.owner.take() {
            self.put(Owner {
                count: level,
                ..owner
            });
        }
    }

    /// Puts an owner where there is none.
    fn put(&mut self, owner: Owner<K>)
        requires owner { (0 < owner.count) × (owner.count ≤ self.old.limit) }
        requires none { self.old.owner ≡ None }
        ensures { self.new ≡ record self.old {
          owner = Some (record { party = id_of owner.party; count = owner.count; token = owner.token });
        } }
    {
        match mem::replace(&mut self.owner, Some(owner)) {
            Some(_owner) => unreachable!(),
            None => {}
        }
    }

    /// Removes the owner, and returns its token.
    fn free(&mut self) -> Option<K>
        ensures token { result ≡ token_of self.old }
        ensures after { self.new ≡ free_levels self.old.limit }
    {
        self.owner.take().map(|owner| owner.token)
    }
}
