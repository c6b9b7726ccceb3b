//! How many leaves are allowed, and how many are spent.
ghost use Rattle.std.specs.Prelude.{◌≡◌};
ghost use Rattle.worker_loop.specs.Sweeps.{is_spent};
ghost use Rattle.worker_loop.specs.Jobs.{spent_with};

/// The number of leaves of a book stands still here.
const MOST_SPENT: u64 = 1 << 62;

/// Whether the leaves of an allowance are spent.
pub(crate) fn is_spent(allowance: Option<u64>, spent: u64) -> bool
    ensures { result ≡ is_spent allowance spent }
{
    match allowance {
        Some(allowance) => allowance <= spent,
        None => false,
    }
}

/// So much is spent, once these leaves are reported too.
pub(crate) fn spent_with(spent: u64, leaves: u64) -> u64
    ensures { result ≡ spent_with spent leaves }
{
    spent.saturating_add(leaves).min(MOST_SPENT)
}
