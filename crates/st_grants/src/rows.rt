// Work on the rows of the tickets that aren't released.
ghost use Rattle.std.specs.Prelude.{◌≡◌, map, filter, find, not};
ghost use Rattle.std.specs.Option.{option_copied};
ghost use Rattle.st_wants.specs.Lock.{has_ticket, keeps_back, marked, row_at};

use st_wants::{LockRow, compatible};

pub fn find_row(rows: &[LockRow], ticket: u64) -> Option<&LockRow>
    ensures { option_copied result ≡ row_at ticket rows.now }
{
    rows.iter().find(|row| row.ticket == ticket)
}

pub fn find_blocker<'a>(rows: &'a [LockRow], own: &LockRow) -> Option<&'a LockRow>
    ensures { option_copied result ≡ find (λ q. keeps_back q own.now) rows.now }
{
    rows.iter().find(|row| !compatible(&row.want, &own.want)
        && (row.live || row.ticket < own.ticket))
}

fn mark_row(row: &mut LockRow, ticket: u64)
    ensures { row.new ≡ marked ticket row.old }
{
    row.live = row.live || row.ticket == ticket;
}

pub fn mark(rows: &mut Vec<LockRow>, ticket: u64)
    ensures { rows.new.items ≡ map (marked ticket) rows.old.items }
{
    for row in rows.iter_mut() {
        mark_row(row, ticket);
    }
}

pub fn remove_row(rows: &mut Vec<LockRow>, ticket: u64)
    ensures { rows.new.items ≡ filter (λ r. not (has_ticket ticket r)) rows.old.items }
{
    rows.retain(|row| row.ticket != ticket);
}
