ghost use Rattle.std.specs.Prelude.{◌≡◌, ℕ, ◌≤◌, ◌<◌, List, Some, take};
ghost use Rattle.std.specs.List.{All};
ghost use Rattle.st_limits.specs.Sums.{IsDeviceSize, room};
ghost use Rattle.st_linear.specs.Places.{place_at};
ghost use Rattle.st_datatier.specs.Tier.{data_blocks, LiesOn};

/// A block of the tier lies on its device, behind what is reserved there.
pub fn blocks_lie_on_devices()
    ensures { (sectors : List ℕ) (n b dev first : ℕ) → place_at (take n (data_blocks sectors)) b ≡ Some (dev, first) → LiesOn sectors dev first }
{}
