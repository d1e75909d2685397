ghost use Rattle.std.specs.Prelude.{◌≡◌, ◌<◌, length, slice_get, bytes_eq, IfSome, IfNone, None};
ghost use Rattle.std.specs.List.{position};
ghost use Rattle.st_model.specs.declared.state.FsState.{FsState};
ghost use Rattle.st_model.specs.Checks.{fs_at};

use st_model::FsState;
use st_units::Name;

fn place_in(filesystems: &[FsState], name: &Name) -> Option<usize>
    ensures { result ≡ position (λ (fs : FsState). bytes_eq fs.row.name name.now) filesystems.now }
{
    filesystems
        .iter()
        .position(|fs| fs.row.name.bytes() == name.bytes())
}

/// The place of the filesystem of this name.
pub fn place_of_fs(filesystems: &[FsState], name: &Name) -> Option<usize>
    ensures within { IfSome result (λ i. i < length filesystems.now) }
    ensures at { IfSome result (λ i. fs_at name.now filesystems.now ≡ slice_get filesystems.now i) }
    ensures none { IfNone result (fs_at name.now filesystems.now ≡ None) }
{
    place_in(filesystems, name)
}
