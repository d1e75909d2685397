//! The mappings in order.
ghost use Rattle.std.specs.Prelude.{◌≡◌, ◌+◌, ◌<◌, ◌≤◌, insert, length, vec_len};
ghost use Rattle.std.specs.Vec.{vec_capacity};
ghost use Rattle.st_thinmap.specs.Thin.{without_fs};
ghost use Rattle.st_thinmap.specs.Order.{RisesFrom, item_at, key, mapping_at, put};

use crate::mapping::Mapping;
use crate::order::{key_of, row_rank};

/// The mapping of a block.
pub fn find_row(rows: &[Mapping], fs: u64, block: u32) -> Option<Mapping>
    requires { RisesFrom key 0 rows.now }
    ensures { result ≡ mapping_at fs block rows.now }
{
    let at = row_rank(rows, fs, block);
    if at < rows.len() && key_of(rows[at].fs, rows[at].block) == key_of(fs, block) {
        Some(rows[at])
    } else {
        None
    }
}

/// Puts the mapping in order, and gives the one of its block that it replaces. It takes no memory.
pub fn put_row(rows: &mut Vec<Mapping>, mapping: Mapping) -> Option<Mapping>
    requires order { RisesFrom key 0 rows.old.items }
    requires room { vec_len rows.old < vec_capacity rows.old }
    ensures old { result ≡ item_at key (key mapping) rows.old.items }
    ensures rows { rows.new.items ≡ put mapping rows.old.items }
    ensures len { vec_len rows.new ≤ vec_len rows.old + 1 }
    ensures capacity { vec_capacity rows.old ≤ vec_capacity rows.new }
{
    let old = find_row(rows, mapping.fs, mapping.block);
    let at = row_rank(rows, mapping.fs, mapping.block);
    match old {
        Some(_) => rows[at] = mapping,
        None => insert_row(rows, at, mapping),
    }
    old
}

/// Puts the mapping at that place among the rows.
fn insert_row(rows: &mut Vec<Mapping>, at: usize, mapping: Mapping)
    requires within { at ≤ vec_len rows.old }
    requires room { vec_len rows.old < vec_capacity rows.old }
    ensures rows { rows.new.items ≡ insert rows.old.items at mapping }
    ensures len { vec_len rows.new ≡ vec_len rows.old + 1 }
    ensures capacity { vec_capacity rows.old ≤ vec_capacity rows.new }
{
    match rows.insert(at, mapping) {
        Ok(()) => {}
        Err(_) => unreachable!(),
    }
}

/// Takes out the rows of a filesystem. It takes no memory.
pub fn remove_rows(rows: &mut Vec<Mapping>, fs: u64)
    ensures { rows.new.items ≡ without_fs fs rows.old.items }
{
    rows.retain(|row| row.fs != fs);
}
