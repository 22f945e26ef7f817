//! The laws of plans on machines, at an operation that reads a number.
use lock_machine::Op;
use lock_plan_laws::{
    ordered_plans_never_stop, plans_without_a_circle_never_stop, worlds_are_runs_of_machines,
};

/// Answers the number, and leaves it.
#[derive(Clone, Copy)]
struct Look;

impl Op<u64> for Look {
    ghost use Rattle.std.specs.Prelude.{true};

    type Answer = u64;

    ghost meaning = { λ _. record {
      fits = λ _. true;
      read_answer = λ value. value;
      change_answer = λ value. value;
      after = λ value. value;
    } };

    fn fits(&self, _value: &u64) -> bool {
        true
    }

    fn ask(&self, value: &u64) -> u64 {
        *value
    }

    fn apply(&self, value: &mut u64) -> u64 {
        *value
    }
}

#[test]
fn laws_of_plans_hold_of_an_operation(rt: HostRuntime) {
    worlds_are_runs_of_machines::<u64, Look>();
    ordered_plans_never_stop::<u64, Look>();
    plans_without_a_circle_never_stop::<u64, Look>();
    let mut value = 7;
    assert_eq!(rt; Look.apply(&mut value), 7);
    assert_eq!(rt; value, 7);
}
