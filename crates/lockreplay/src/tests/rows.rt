//! Scripts, and what the program tells: the answers, or the fault. A `;` is a line's end, and a `~` the byte 255.
//!
//! `.ci/plans` gives these scripts to the built program. They are one text for a desk and one for a world: the proof of lists takes longer.

/// Scripts of calls of a lock.
pub const DESKS: &str = "\
mutex 4 10 0;lock 1;try_lock 2;lock 2; -> ok;guard 1;none;refused 1;
mutex 1 5 0;lock 1;lock 1;get 2 1 0;get 1 1 2;unlock 1 1;unlock 1 1;is_locked; -> ok;guard 1;refused 8;value 5;refused 14;ok;refused 2;no;
mutex 4 1 2;lock 1;park 1 1;is_locked;resume 1 1;bump 1 1;park_fair 1 1;resume 1 1;get 1 1 2;unlock_fair 1 1;spent;try_lock_for 1;unlock 1 2;try_lock_until 1;unlock_fair 1 3;spent;is_locked; -> ok;guard 1;ok;no;ok;ok;ok;ok;refused 14;ok;count 4;guard 2;ok;guard 3;ok;count 6;no;
mutex 4 0 0;try_lock_for 1;park 1 1;resume 1 1;bump 1 1;into_arc_fair 1 1;lock 1;unlock 1 2;spent; -> ok;guard 1;ok;ok;ok;ok;guard 2;ok;count 4;
mutex 4 0 0;lock 1;park 1 1;lock 2;resume 1 1;unlock 1 1;abandon 1 1;abandon 1 1; -> ok;guard 1;ok;guard 2;refused 1;refused 3;ok;refused 2;
mutex 4 0 0;lock 1;park 1 1;lock 2;into_arc 1 1;abandon 2 2;abandon 1 1;into_arc_fair 2 2;try_lock 1;try_lock_for 2;park_fair 1 3;try_lock_until 2;bump 2 4; -> ok;guard 1;ok;guard 2;refused 3;refused 4;ok;ok;guard 3;none;ok;guard 4;ok;
mutex 1 0 0;lock 1;park 1 1;try_lock 2; -> ok;guard 1;ok;refused 8;
mutex 2 1 2;lock 1;set 1 1 1 -7;unlock 1 1;lock 2;get 2 2 1;add 2 2 1 9223372036854775807;add 2 2 1 8; -> ok;guard 1;value -7;ok;guard 2;value -7;value 9223372036854775800;refused 14;
mutex 0 0 0; -> refused 12;
mutex 0 0 0;lock 1; -> refused 12;
mutex 4294967296 0 0; -> refused 12;
rwlock 4 8 1 2;upgradable_read 1;read 2;try_with_upgraded 1 1 0 1;try_with_upgraded_for 1 1 0 1;try_with_upgraded_until 1 1 0 1;try_upgrade 1 1;try_upgrade_for 1 1;try_upgrade_until 1 1;upgrade 1 1;try_upgradable_read 2;unlock 2 2;try_with_upgraded 1 1 0 1;try_with_upgraded_for 1 1 0 1;try_with_upgraded_until 1 1 0 1;upgrade 1 1;downgrade_to_upgradable 1 1;try_upgrade_for 1 1;downgrade 1 1;get 1 1 0;unlock 1 1;spent;is_locked; -> ok;guard 1;guard 2;none;none;none;none;none;none;refused 1;none;ok;value 2;value 3;value 4;ok;ok;ok;ok;value 4;ok;count 2;no;
rwlock 1 1 0 0;try_read_for 1;park 1 1;resume 1 1;park_fair 1 1;resume 1 1;bump 1 1;unlock_fair 1 1;try_write_until 1;park 1 2;resume 1 2;park_fair 1 2;resume 1 2;bump 1 2;unlock_fair 1 2;try_upgradable_read_for 1;park 1 3;resume 1 3;park_fair 1 3;resume 1 3;bump 1 3;unlock_fair 1 3;spent;is_locked; -> ok;guard 1;ok;ok;ok;ok;ok;ok;guard 2;ok;ok;ok;ok;ok;ok;guard 3;ok;ok;ok;ok;ok;ok;count 12;no;
rwlock 4 8 0 0;upgradable_read 1;read 1;try_upgrade 1 1;unlock 1 2;try_upgrade_until 1 1;downgrade_to_upgradable 1 1;try_upgrade_for 1 1;bump 1 1;downgrade_to_upgradable 1 1;downgrade 1 1;into_arc 1 1;spent;is_locked; -> ok;guard 1;guard 2;none;ok;ok;ok;ok;ok;ok;ok;ok;count 3;no;
rwlock 4 1 0 0;upgradable_read 1;read 2;downgrade 1 1;try_read 2;unlock 1 1;try_read 2; -> ok;guard 1;refused 1;ok;none;ok;guard 2;
rwlock 2 2 0 0;unlock 1 1;unlock 1 0;read 1;resume 1 1;set 1 1 0 5;upgrade 1 1;park 1 1;bump 1 1;downgrade 1 1;try_lock 1;spent; -> ok;refused 2;refused 2;guard 1;refused 4;refused 6;refused 6;ok;refused 3;refused 3;refused 7;count 1;
rwlock 2 2 4 0;write 1;is_locked_exclusive;with_upgraded 1 1 0 1;downgrade_to_upgradable 1 1;with_upgraded 1 1 0 1;is_locked_exclusive; -> ok;guard 1;yes;refused 6;ok;value 5;no;
rwlock 4 4294967296 0 0; -> refused 12;
rwlock 4 4294967296 0 0;read 1; -> refused 12;
reentrant 4 4 0 0;lock 1;lock 1;unlock 1 1;spent;bump 1 2;spent;park 1 2;spent;resume 1 2;unlock_fair 1 2;spent;is_locked; -> ok;guard 1;guard 2;ok;count 0;ok;count 1;ok;count 2;ok;ok;count 3;no;
reentrant 4 4 5 0;lock 1;lock 1;bump 1 1;spent;get 2 1 0;try_lock 2;lock 2;is_owned_by 1;is_owned_by 2;set 1 1 0 9; -> ok;guard 1;guard 2;ok;count 0;refused 5;none;refused 1;yes;no;refused 7;
reentrant 4 2 0 0;lock 1;lock 1;lock 1;try_lock 1;lock 2;park 1 1;lock 1;resume 1 1; -> ok;guard 1;guard 2;refused 10;refused 10;refused 1;ok;guard 3;refused 10;
reentrant 2 2 0 0;lock 1;park 1 1;is_owned_by 1; -> ok;guard 1;ok;no;
rwlock 2 2 0 0;write 1;park 1 1;is_locked_exclusive; -> ok;guard 1;ok;no;
mutex 1 0 0;is_locked_exclusive; -> ok;refused 7;
reentrant 2 2 0 0;write 1; -> ok;refused 7;
rwlock 2 2 0 0;upgradable_read 1;read 2;park 2 2;try_upgrade 1 1; -> ok;guard 1;guard 2;ok;ok;
reentrant 2 2 0 0;lock 1;park 1 1;get 2 1 0; -> ok;guard 1;ok;refused 5;
rwlock 2 2 0 0;upgradable_read 1;read 2;try_with_upgraded 1 1 2 1; -> ok;guard 1;guard 2;refused 14;
rwlock 1 1 0 0;read 1;lock 1; -> ok;guard 1;refused 7;
mutex 1 0 0;lock 1;add 1 1 0 9223372036854775807;add 1 1 0 1;add 1 1 1 -9223372036854775808;add 1 1 1 -1; -> ok;guard 1;value 9223372036854775807;refused 14;value -9223372036854775808;refused 14;
reentrant 3 4 0 0;lock 1;park 2 1;park 1 1;lock 2;resume 1 1;get 1 2 0;abandon 2 1;abandon 1 1;is_owned_by 2; -> ok;guard 1;refused 5;ok;guard 2;refused 1;refused 5;refused 5;ok;yes;
mutex 1 0 0;downgrade 1 9;is_owned_by 1;lock 1;lock 1;set 1 1 2 0;park 1 1;set 1 1 2 0; -> ok;refused 7;refused 7;guard 1;refused 8;refused 14;ok;refused 3;
rwlock 4 4294967295 0 0; -> ok;
reentrant 4 4294967295 0 0; -> ok;
rwlock 4 0 0 0; -> refused 12;
reentrant 4 0 0 0; -> refused 12;
mutex 1 0 0;unlock 1 18446744073709551615;lock 18446744073709551615;get 1 1 18446744073709551615;unlock 1 1; -> ok;refused 2;guard 1;refused 14;ok;
rwlock 4 4 0 0;read 1;announce 2;announce 3;announce 2;read 3;try_upgradable_read 3;write 2;unlock 1 1;try_write 3;write 2;is_barred;read 1;unlock 2 2;read 1; -> ok;guard 1;ok;refused 17;refused 17;refused 1;none;refused 1;ok;none;guard 2;no;refused 1;ok;guard 3;
rwlock 4 4 1 2;upgradable_read 1;read 1;park 1 2;announce 2;resume 1 2;bump 1 1;try_upgrade 1 1;is_barred;downgrade_to_upgradable 1 1;withdraw 1;withdraw 2;withdraw 2;resume 1 2;spent; -> ok;guard 1;guard 2;ok;ok;refused 1;ok;ok;yes;ok;refused 18;ok;refused 18;ok;count 2;
rwlock 4 4 0 0;write 1;park 1 1;announce 2;resume 1 1;resume 2 1;is_barred; -> ok;guard 1;ok;ok;refused 1;ok;no;
mutex 2 0 0;announce 1;withdraw 1;is_barred; -> ok;refused 7;refused 7;refused 7;
rwlock 4 8 5 0;read 1;read 2;unlock 2 2;read 2;unlock 2 3;read 2;unlock 2 4;read 2;unlock 2 5;read 2;unlock 2 6;read 2;unlock 2 7;read 2;unlock 2 8;read 2;unlock 2 9;read 2;unlock 2 10;read 2;unlock 2 11;read 2;unlock 2 12;read 2;unlock 2 13;read 2;unlock 2 14;read 2;unlock 2 15;read 2;unlock 2 16;read 2;unlock 2 17;read 2;unlock 2 18;read 2;unlock 2 2;get 1 1 0;get 2 19 0;read 1;unlock 2 19;spent; -> ok;guard 1;guard 2;ok;guard 3;ok;guard 4;ok;guard 5;ok;guard 6;ok;guard 7;ok;guard 8;ok;guard 9;ok;guard 10;ok;guard 11;ok;guard 12;ok;guard 13;ok;guard 14;ok;guard 15;ok;guard 16;ok;guard 17;ok;guard 18;ok;guard 19;refused 2;value 5;value 5;guard 20;ok;count 18;
mutex 4 -9223372036854775808 0;lock 1;get 1 1 0 -> ok;guard 1;value -9223372036854775808;
 -> bad line 1;
; -> bad line 1;
mutex 4 0; -> bad line 1;
mutex 4 0 0 0; -> bad line 1;
rwlock 4 0 0; -> bad line 1;
world 2 3; -> bad line 1;
mutex 4 0 0;lock 0; -> bad line 2;
mutex 0 0 0;lock 0; -> bad line 2;
mutex 4 0 0;; -> bad line 2;
mutex 4 0 0;lock 01; -> bad line 2;
mutex 4 0 0;lock  1; -> bad line 2;
mutex 4 0 0; lock 1; -> bad line 2;
mutex 4 0 0;lock 1 ; -> bad line 2;
mutex 4 0 0;lock +1; -> bad line 2;
mutex 4 0 0;lock 18446744073709551616; -> bad line 2;
mutex 4 0 0;get 1 1 -1; -> bad line 2;
mutex 4 0 0;set 1 1 0 -0; -> bad line 2;
mutex 4 0 0;set 1 1 0 -9223372036854775809; -> bad line 2;
mutex 4 0 0;lock 1\r; -> bad line 2;
mutex 4 0 0;lock ~; -> bad line 2;
mutex 4 0 0;spent 1; -> bad line 2;
mutex 4 0 0;lock 1;lock;lock 0; -> bad line 3;
mutex 4 0 0;lock 1;try_lock_to 1 -> bad line 3;
mutex 4 0 0;lock 1;announced 1; -> bad line 3;";

/// Scripts of steps on a world.
pub const WORLDS: &str = "\
world 2 3;load 1;load 2;exchange 1 shared;exchange 2 shared;load 2;exchange 2 shared;word;fails 2;wins 1; -> ok;loaded 0;loaded 0;done;changed;loaded 1;done;count 2;count 1;count 1;
world 3 3;load 1;exchange 1 shared;load 3;load 2;exchange 2 shared;take 2 shared;exchange 3 shared;word;fails 3;wins 2; -> ok;loaded 0;done;loaded 1;loaded 1;done;done;done;count 2;count 0;count 2;
world 2 3;load 1;load 2;exchange 2 shared;exchange 1 shared;load 1;take 2 shared;exchange 1 shared;fails 1;wins 2;word; -> ok;loaded 0;loaded 0;done;changed;loaded 1;done;changed;count 2;count 2;count 0;
world 1 1;exchange 1 shared;take 1 shared;load 2;load 1;exchange 1 exclusive;take 1 to_upgradable;load 1;exchange 1 upgrade;take 1 shared;take 1 exclusive;word; -> ok;refused 15;refused 6;refused 16;loaded 0;done;done;loaded 4294967297;done;refused 6;done;count 0;
world 2 1;load 1;exchange 1 upgradable;load 2;exchange 2 shared;exchange 2 shared;take 1 upgradable_to_shared;load 2;exchange 2 exclusive;word; -> ok;loaded 0;done;loaded 4294967297;not admitted;refused 15;done;loaded 1;not admitted;count 1;
world 1 1;load 1;exchange 1 exclusive;take 1 to_shared;take 1 shared;load 1;exchange 1 upgradable;take 1 upgradable;word; -> ok;loaded 0;done;done;done;loaded 0;done;done;count 0;
world 1 1;load 0;wins 0;fails 2;wins 18446744073709551615;take 2 exclusive; -> ok;refused 16;refused 16;refused 16;refused 16;refused 16;
world 2 3;load 1;exchange 1 shared;load 2;exchange 2 announce;load 1;exchange 1 shared;exchange 1 announce;take 1 withdraw;take 1 shared;load 1;exchange 1 exclusive;load 2;exchange 2 exclusive;announced 2;word; -> ok;loaded 0;done;loaded 1;done;loaded 17179869185;not admitted;refused 15;refused 6;done;loaded 17179869184;not admitted;loaded 17179869184;done;no;count 8589934592;
world 2 1;load 1;exchange 1 upgradable;load 2;exchange 2 announce;load 1;exchange 1 upgrade;word;take 1 exclusive;take 2 withdraw;word;wins 2; -> ok;loaded 0;done;loaded 4294967297;done;loaded 21474836481;done;count 25769803776;done;done;count 0;count 2;
world 1 1;announced 1;load 1;exchange 1 announce;announced 1;announced 2; -> ok;no;loaded 0;done;yes;refused 16;
world 0 1;load 1; -> refused 12;
world 1 4294967296; -> refused 12;
 -> bad line 1;
world 2; -> bad line 1;
world 2 3 0; -> bad line 1;
world 2 03; -> bad line 1;
worlds 2 3; -> bad line 1;
mutex 4 0 0; -> bad line 1;
rwlock 4 4 0 0; -> bad line 1;
world 2 3;lock 1; -> bad line 2;
world 2 3;load; -> bad line 2;
world 2 3;load 1 shared; -> bad line 2;
world 2 3;exchange 1; -> bad line 2;
world 2 3;exchange 1 to_shared; -> bad line 2;
world 2 3;take 1 upgrade; -> bad line 2;
world 2 3;take 1 shared ; -> bad line 2;
world 2 3;word 1; -> bad line 2;
world 2 3;wins 18446744073709551616; -> bad line 2;
world 0 3;load 1;spent; -> bad line 3;";

/// So many good lines are above one that is bad.
pub const GOOD: [usize; 6] = [254, 255, 256, 65_534, 65_535, 65_536];
