// The table, with what it keeps at all times.
ghost use Rattle.std.specs.Prelude.{◌≡◌, ℕ, ◌≤◌, true, length, None, slice_index_or};
ghost use Rattle.rules.specs.Limits.{connections, longest_wait};
ghost use Rattle.table.specs.Places.{distinct, fit_place};

use crate::place::Place;
use rules::limits::CONNECTIONS;

// The clock, the wait, and a place for each connection. No two places have one address, and every connection is fit at the clock,
// so that each report that it can make is within the frame's rules. A rule of the project: the places are a plain table of
// sixteen, searched in order.
#[derive(Drop)]
pub struct Table {
    pub(crate) clock: u32,
    pub(crate) wait: u32,
    pub(crate) slots: [Option<Place>; CONNECTIONS],
    ghost many: { length slots ≡ connections },
    ghost apart: { distinct slots ≡ true },
    ghost fitting: { (k : ℕ) → fit_place clock (slice_index_or slots k None) ≡ true },
    ghost patient: { wait ≤ longest_wait },
}
