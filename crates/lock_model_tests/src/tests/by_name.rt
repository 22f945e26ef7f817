//! Calls by the named public functions, instead of `apply`.
use lock_desk::Desk;
use lock_machine::{Call, Form, Op, Reply, Want};
use lock_modes::{Fault, PartyId, RawState};

/// The answer of a function that may not be admitted, or its refusal.
type Named<X> = Result<Option<X>, Fault>;

/// `apply`, where a call with four forms is made by the function of its form.
pub fn by_name<R: RawState, O: Op<u64, Answer = u64>>(
    desk: &mut Desk<R, u64>,
    call: &Call<O>,
) -> Reply<u64> {
    match call {
        Call::Acquire(want, form, party) => {
            reply(acquire(desk, *want, *form, *party), Reply::Guard)
        }
        Call::Upgrade(form, party, guard) => {
            reply(upgrade(desk, *form, *party, *guard), |_| Reply::Done)
        }
        Call::WithUpgraded(form, party, guard, op) => {
            reply(
                with_upgraded(desk, *form, *party, *guard, op),
                Reply::Answer,
            )
        }
        others => desk.apply(others),
    }
}

/// The answer as a reply. A blocking function refuses where it is not admitted.
fn reply<X, F: FnOnce(X) -> Reply<u64>>(answer: Named<X>, tell: F) -> Reply<u64>
    requires { F.IsAlwaysCallable tell }
{
    match answer {
        Ok(Some(answer)) => tell(answer),
        Ok(None) => Reply::NoGuard,
        Err(fault) => Reply::Refused(fault),
    }
}

fn acquire<R: RawState>(
    desk: &mut Desk<R, u64>,
    want: Want,
    form: Form,
    party: PartyId,
) -> Named<u64> {
    match want {
        Want::Lock => lock(desk, form, party),
        Want::Read => read(desk, form, party),
        Want::Write => write(desk, form, party),
        Want::UpgradableRead => upgradable_read(desk, form, party),
    }
}

fn lock<R: RawState>(desk: &mut Desk<R, u64>, form: Form, party: PartyId) -> Named<u64> {
    match form {
        Form::Block => desk.lock(party).map(Some),
        Form::Try => desk.try_lock(party),
        Form::For => desk.try_lock_for(party),
        Form::Until => desk.try_lock_until(party),
    }
}

fn read<R: RawState>(desk: &mut Desk<R, u64>, form: Form, party: PartyId) -> Named<u64> {
    match form {
        Form::Block => desk.read(party).map(Some),
        Form::Try => desk.try_read(party),
        Form::For => desk.try_read_for(party),
        Form::Until => desk.try_read_until(party),
    }
}

fn write<R: RawState>(desk: &mut Desk<R, u64>, form: Form, party: PartyId) -> Named<u64> {
    match form {
        Form::Block => desk.write(party).map(Some),
        Form::Try => desk.try_write(party),
        Form::For => desk.try_write_for(party),
        Form::Until => desk.try_write_until(party),
    }
}

fn upgradable_read<R: RawState>(desk: &mut Desk<R, u64>, form: Form, party: PartyId) -> Named<u64> {
    match form {
        Form::Block => desk.upgradable_read(party).map(Some),
        Form::Try => desk.try_upgradable_read(party),
        Form::For => desk.try_upgradable_read_for(party),
        Form::Until => desk.try_upgradable_read_until(party),
    }
}

fn upgrade<R: RawState>(
    desk: &mut Desk<R, u64>,
    form: Form,
    party: PartyId,
    guard: u64,
) -> Named<()> {
    match form {
        Form::Block => desk.upgrade(party, guard).map(Some),
        Form::Try => desk.try_upgrade(party, guard),
        Form::For => desk.try_upgrade_for(party, guard),
        Form::Until => desk.try_upgrade_until(party, guard),
    }
}

fn with_upgraded<R: RawState, O: Op<u64, Answer = u64>>(
    desk: &mut Desk<R, u64>,
    form: Form,
    party: PartyId,
    guard: u64,
    op: &O,
) -> Named<u64> {
    match form {
        Form::Block => desk.with_upgraded(party, guard, op).map(Some),
        Form::Try => desk.try_with_upgraded(party, guard, op),
        Form::For => desk.try_with_upgraded_for(party, guard, op),
        Form::Until => desk.try_with_upgraded_until(party, guard, op),
    }
}
