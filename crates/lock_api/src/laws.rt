//! The theorems. Each is a function whose contract states it; a proof calls the function to use the theorem.

pub use lock_desk::desk_is_sound;
pub use lock_machine::laws::{
    bars_keep_others_out, exclusive_guards_exclude, nested_guards_make_one_token,
    new_guards_are_held, numbers_are_used_once, only_writes_change_value,
    parked_guards_hold_nothing, parked_is_resumed, readers_see_one_value, refusals_come_in_order,
    refusals_keep_machine, refused_upgrades_keep_guard, replies_are_as_many, runs_are_sound,
    spent_counts_releases, tokens_are_those_held,
};
pub use lock_one::{
    answers_match_holds, barred_calls_are_next, every_run_is_served, first_steps,
    readers_get_a_turn, refusals_have_causes, releases_touch_no_more, storing_keeps_words,
};
pub use lock_one_word::every_state_is_legal;
pub use lock_parts::{
    mapping_twice_is_then, missed_write_changes_nothing, then_is_associative, then_is_lawful,
    then_misses_in_order, write_keeps_part,
};
pub use lock_raws_fair::{
    arrivals_wait_for_few, idle_locks_admit, nobody_is_overtaken, nobody_passes_an_upgrade,
    overtaking_is_bounded, timed_tickets_may_leave, wakes_miss_nobody,
};
pub use lock_ruled::{
    every_state_accounts_for_permits, every_state_forgets_no_user, every_state_is_ruled,
};
pub use lock_wake::every_state_wakes_the_registered;
pub use lock_word::seated::every_state_keeps_rule;
pub use lock_word::{
    bar_encodings_agree, encoding_is_injective, every_interleaving, exchanges_refine_steps,
    exchanges_unblock_nobody, subtractions_refine_steps, unblocks_misses_nobody,
};
