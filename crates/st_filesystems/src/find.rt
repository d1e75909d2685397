ghost use Rattle.std.specs.Prelude.{◌≡◌, option_copied};
ghost use Rattle.st_model.specs.Checks.{fs_at};

use st_model::FsState;
use st_units::Name;

/// The filesystem of this name.
pub fn fs_at<'a>(filesystems: &'a [FsState], name: &Name) -> Option<&'a FsState>
    ensures { option_copied result ≡ fs_at name.now filesystems.now }
{
    filesystems
        .iter()
        .find(|fs| fs.row.name.bytes() == name.bytes())
}
