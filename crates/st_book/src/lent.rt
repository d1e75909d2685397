ghost use Rattle.std.specs.Prelude.{◌≡◌, ◌≤◌, ◌+◌, ◌-◌, ◌^◌, min, filter, not, option_map, vec_capacity, vec_len};
ghost use Rattle.std.specs.List.{sum_by};
ghost use Rattle.st_book.specs.View.{is_lent_to, or_zero};

use st_model::{Board, Cell};

/// A live ticket, with the number of faults that its part had at the grant.
#[derive(Clone, Copy, Drop)]
pub struct Lent {
    pub ticket: u64,
    /// It stops at its last value.
    pub faults: u64,
}

/// Forgets the ticket.
pub(crate) fn forget(lent: &mut Vec<Lent>, ticket: u64)
    ensures items { lent.new.items ≡ filter (λ x. not (is_lent_to ticket x)) lent.old.items }
    ensures capacity { vec_capacity lent.new ≡ vec_capacity lent.old }
    ensures len { vec_len lent.new ≤ vec_len lent.old }
{
    lent.retain(|x| x.ticket != ticket);
}

/// The sum of the numbers of faults of a part, which stops at its last value.
pub(crate) fn faults_of<C: Cell, T: Board>(table: &Option<T>, cells: &[C]) -> u64
    ensures { result ≡ min (or_zero (option_map T.fault_count table.now) + sum_by C.fault_count cells.now) (2 ^ 64 - 1) }
{
    let mut sum = match table {
        Some(table) => table.faults(),
        None => 0,
    };
    for cell in cells {
        sum = sum.saturating_add(cell.faults());
    }
    sum
}
