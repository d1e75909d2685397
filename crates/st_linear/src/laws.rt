ghost use Rattle.std.specs.Prelude.{◌≡◌, ◌≢◌, ℕ, ◌<◌, List, ◌++◌, length};
ghost use Rattle.st_seg.specs.Blocks.{Block, NoneTwice};
ghost use Rattle.st_linear.specs.Devices.{blocks_of_devices};
ghost use Rattle.st_linear.specs.Places.{place_at};

/// Two blocks of a table without a block twice lie at different places.
pub fn places_differ()
    ensures { (blocks : List Block) → NoneTwice blocks → (b c : ℕ) → b < length blocks → c < length blocks → b ≢ c → place_at blocks b ≢ place_at blocks c }
{}

/// Where segments are added to a table, the blocks that it had stay where they were.
pub fn extension_keeps_places()
    ensures { (blocks more : List Block) (b : ℕ) → b < length blocks → place_at (blocks ++ more) b ≡ place_at blocks b }
{}

/// No block stands twice among all blocks of several devices.
pub fn devices_apart()
    ensures { (dev : ℕ) (sectors : List ℕ) → NoneTwice (blocks_of_devices dev sectors) }
{}
