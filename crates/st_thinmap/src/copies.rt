//! The mappings of a filesystem once more, for its snapshot.
ghost use Rattle.std.specs.Prelude.{◌≡◌, ◌+◌, ◌-◌, ◌≤◌, ◌<◌, ◌++◌, ◌∷◌, [], map, take, drop, vec_len};
ghost use Rattle.std.specs.Vec.{vec_capacity};
ghost use Rattle.st_thinmap.specs.Thin.{with_fs};
ghost use Rattle.st_thinmap.specs.inner.Tied.{Tied};

use crate::mapping::Mapping;
use crate::uses::{Use, raise};

/// Puts the mappings from `start` to `end` last once more, as those of the filesystem `fs`. It takes no memory.
pub fn copy_rows(rows: &mut Vec<Mapping>, uses: &mut Vec<Use>, start: usize, end: usize, fs: u64)
    requires tied { Tied uses.old.items rows.old.items }
    requires order { start ≤ end }
    requires within { end ≤ vec_len rows.old }
    requires few { vec_len rows.old + (end - start) ≤ 32768 }
    requires room { vec_len rows.old + (end - start) ≤ vec_capacity rows.old }
    ensures rows { rows.new.items ≡ rows.old.items ++ map (with_fs fs) (take (end - start) (drop start rows.old.items)) }
    ensures tied { Tied uses.new.items rows.new.items }
{
    for i in start..end {
        let row = rows[i];
        raise(uses, row.place);
        push_row(
            rows,
            Mapping {
                fs,
                block: row.block,
                cell: row.cell,
                place: row.place,
            },
        );
    }
}

/// Puts a mapping last, for which there is room.
fn push_row(rows: &mut Vec<Mapping>, mapping: Mapping)
    requires room { vec_len rows.old < vec_capacity rows.old }
    ensures rows { rows.new.items ≡ rows.old.items ++ mapping ∷ [] }
    ensures len { vec_len rows.new ≡ vec_len rows.old + 1 }
    ensures capacity { vec_capacity rows.old ≤ vec_capacity rows.new }
{
    match rows.push(mapping) {
        Ok(()) => {}
        Err(_) => unreachable!(),
    }
}
