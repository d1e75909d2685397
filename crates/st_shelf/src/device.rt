ghost use Rattle.std.specs.Prelude.{◌≡◌, ℕ};
ghost use Rattle.st_rack.specs.Device.{Path, DevState};

use st_units::DevPath;

/// A device that stands on a shelf under its path.
pub trait Device {
    ghost path_of: { Self → Path };

    /// Its sectors.
    ghost size: { Self → ℕ };

    /// What it holds and what it was told.
    ghost state: { Self → DevState };

    fn path(&self) -> &DevPath
        ensures { result.now ≡ path_of self.now };
}
