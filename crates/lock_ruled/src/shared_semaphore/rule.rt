//! The rule of the free permits and of all tokens.
use atomic_table::TableRule;

/// What the rule keeps of a token. It exists in contracts only.
pub struct PermitView {
    /// The permits of the token.
    pub own: u64,
    /// The permits that its semaphore was made with.
    pub all: u64,
}

/// The rule of a word, the number of free permits, and of the views of all tokens. The key of the table is the number of all
/// permits.
pub struct PermitRule;

impl TableRule<(), PermitView, u64> for PermitRule {
    ghost use Rattle.lock_ruled.specs.Accounts.{IsAccounted, newcomer};

    ghost holds = { IsAccounted };

    ghost first = { newcomer };
}
