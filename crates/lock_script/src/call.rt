//! The lines of calls.
ghost use Rattle.std.specs.Prelude.{◌≡◌, ◌↔◌, ◌∷◌, [], IfSome, IsSome, decimal};
ghost use Rattle.lock_modes.specs.Party.{id_of};
ghost use Rattle.lock_script.specs.Numbers.{IsParty};
ghost use Rattle.lock_script.specs.Words.{IsOneOf, guard_words, item_words, lone_words, number_words, party_words};
ghost use Rattle.lock_script.specs.CallLines.{by_party, call_fields, on_guard, on_item, with_number};

use crate::line::ScriptLine;
use crate::pair::PairOp;
use lock_machine::{Call, Form, Want, Way};
use lock_modes::PartyId;
use script_text::{first_field, signed, unsigned};

impl ScriptLine for Call<PairOp> {
    ghost use Rattle.lock_script.specs.Words.{IsCall};

    ghost fields = { call_fields };

    ghost makes = { IsCall };

    fn read(line: &str) -> Option<Call<PairOp>> {
        let Some((word, rest)) = first_field(line) else {
            return alone(line);
        };
        let Some((id, rest)) = first_field(rest) else {
            return of_party(word, party(rest)?);
        };
        let party = party(id)?;
        let Some((guard, rest)) = first_field(rest) else {
            return of_guard(word, party, unsigned(rest)?);
        };
        let guard = unsigned(guard)?;
        let Some((item, number)) = first_field(rest) else {
            return of_item(word, party, guard, unsigned(rest)?);
        };
        of_number(word, party, guard, unsigned(item)?, signed(number)?)
    }
}

/// Reads a party.
fn party(field: &str) -> Option<PartyId>
    ensures some { IsSome result ↔ IsParty field.now }
    ensures text { IfSome result (λ party. decimal (id_of party) ≡ field.now) }
{
    let id = unsigned(field)?;
    PartyId::new(id)
}

/// Reads the call of a single word.
fn alone(word: &str) -> Option<Call<PairOp>>
    ensures fields { IfSome result (λ call. call_fields call ≡ word.now ∷ []) }
    ensures words { IsSome result ↔ IsOneOf lone_words word.now }
{
    let call = match word {
        "is_locked" => Call::IsLocked,
        "is_locked_exclusive" => Call::IsLockedExclusive,
        "is_barred" => Call::IsBarred,
        "spent" => Call::Spent,
        _ => return None,
    };
    Some(call)
}

/// Reads the call of a word and a party.
fn of_party(word: &str, party: PartyId) -> Option<Call<PairOp>>
    ensures fields { IfSome result (λ call. call_fields call ≡ by_party word.now party) }
    ensures words { IsSome result ↔ IsOneOf party_words word.now }
{
    let call = match word {
        "lock" => Call::Acquire(Want::Lock, Form::Block, party),
        "try_lock" => Call::Acquire(Want::Lock, Form::Try, party),
        "try_lock_for" => Call::Acquire(Want::Lock, Form::For, party),
        "try_lock_until" => Call::Acquire(Want::Lock, Form::Until, party),
        "read" => Call::Acquire(Want::Read, Form::Block, party),
        "try_read" => Call::Acquire(Want::Read, Form::Try, party),
        "try_read_for" => Call::Acquire(Want::Read, Form::For, party),
        "try_read_until" => Call::Acquire(Want::Read, Form::Until, party),
        "write" => Call::Acquire(Want::Write, Form::Block, party),
        "try_write" => Call::Acquire(Want::Write, Form::Try, party),
        "try_write_for" => Call::Acquire(Want::Write, Form::For, party),
        "try_write_until" => Call::Acquire(Want::Write, Form::Until, party),
        "upgradable_read" => Call::Acquire(Want::UpgradableRead, Form::Block, party),
        "try_upgradable_read" => Call::Acquire(Want::UpgradableRead, Form::Try, party),
        "try_upgradable_read_for" => Call::Acquire(Want::UpgradableRead, Form::For, party),
        "try_upgradable_read_until" => Call::Acquire(Want::UpgradableRead, Form::Until, party),
        "is_owned_by" => Call::IsOwnedBy(party),
        "announce" => Call::Announce(party),
        "withdraw" => Call::Withdraw(party),
        _ => return None,
    };
    Some(call)
}

/// Reads the call of a word, a party and a guard.
fn of_guard(word: &str, party: PartyId, guard: u64) -> Option<Call<PairOp>>
    ensures fields { IfSome result (λ call. call_fields call ≡ on_guard word.now party guard) }
    ensures words { IsSome result ↔ IsOneOf guard_words word.now }
{
    let call = match word {
        "unlock" => Call::Unlock(party, guard, Way::Plain),
        "unlock_fair" => Call::Unlock(party, guard, Way::Fair),
        "into_arc" => Call::Unlock(party, guard, Way::IntoArc),
        "into_arc_fair" => Call::Unlock(party, guard, Way::IntoArcFair),
        "park" => Call::Park(party, guard),
        "park_fair" => Call::ParkFair(party, guard),
        "resume" => Call::Resume(party, guard),
        "abandon" => Call::Abandon(party, guard),
        "bump" => Call::Bump(party, guard),
        "upgrade" => Call::Upgrade(Form::Block, party, guard),
        "try_upgrade" => Call::Upgrade(Form::Try, party, guard),
        "try_upgrade_for" => Call::Upgrade(Form::For, party, guard),
        "try_upgrade_until" => Call::Upgrade(Form::Until, party, guard),
        "downgrade" => Call::Downgrade(party, guard),
        "downgrade_to_upgradable" => Call::DowngradeToUpgradable(party, guard),
        _ => return None,
    };
    Some(call)
}

/// Reads the call of a word, a party, a guard and an item.
fn of_item(word: &str, party: PartyId, guard: u64, item: u64) -> Option<Call<PairOp>>
    ensures fields { IfSome result (λ call. call_fields call ≡ on_item word.now party guard item) }
    ensures words { IsSome result ↔ IsOneOf item_words word.now }
{
    let call = match word {
        "get" => Call::Get(party, guard, PairOp::Item(item)),
        _ => return None,
    };
    Some(call)
}

/// Reads the call of a word, a party, a guard, an item and a number.
fn of_number(word: &str, party: PartyId, guard: u64, item: u64, number: i64) -> Option<Call<PairOp>>
    ensures fields { IfSome result (λ call. call_fields call ≡ with_number word.now party guard item number) }
    ensures words { IsSome result ↔ IsOneOf number_words word.now }
{
    let sum = PairOp::Add(item, number);
    let call = match word {
        "set" => Call::Change(party, guard, PairOp::Set(item, number)),
        "add" => Call::Change(party, guard, sum),
        "with_upgraded" => Call::WithUpgraded(Form::Block, party, guard, sum),
        "try_with_upgraded" => Call::WithUpgraded(Form::Try, party, guard, sum),
        "try_with_upgraded_for" => Call::WithUpgraded(Form::For, party, guard, sum),
        "try_with_upgraded_until" => Call::WithUpgraded(Form::Until, party, guard, sum),
        _ => return None,
    };
    Some(call)
}
