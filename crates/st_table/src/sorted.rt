ghost use Rattle.std.specs.Prelude.{◌≡◌, ℕ, ◌||◌, List, bytes_eq, OnOk, IfOk};
ghost use Rattle.st_order.specs.Sorted.{IsRising};
ghost use Rattle.st_model.specs.Look.{has_path};
ghost use Rattle.st_table.specs.Table.{AreInOrder};

use st_order::search;
use st_units::{DevList, DevPath, NoMemory};
use std::alloc::Global;

/// Puts the path into its place, where it isn't there yet.
fn put_path(list: &mut DevList, path: &DevPath) -> Result<(), NoMemory>
    requires { IsRising list.old }
    ensures rising { OnOk result (IsRising list.new) }
    ensures same { OnOk result ((p : List ℕ) → has_path p list.new ≡ (has_path p list.old || bytes_eq path.now p)) }
{
    match search(list.items(), path.bytes()) {
        Ok(_) => Ok(()),
        Err(i) => {
            list.insert(i, path.copy()?)?;
            Ok(())
        }
    }
}

/// The paths in byte order, each once.
pub(crate) fn in_order(alloc: Global, paths: &[DevPath]) -> Result<DevList, NoMemory>
    ensures { IfOk result (λ list. AreInOrder paths.now list) }
{
    let mut list = DevList::make(alloc);
    for path in paths {
        put_path(&mut list, path)?;
    }
    Ok(list)
}
