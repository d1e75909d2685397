//! Laws of what a start finds. They do nothing when they run.

ghost use Rattle.std.specs.Prelude.{◌≡◌, ℕ, List, Some, None};
ghost use Rattle.st_rack.specs.Device.{Path, Image};
ghost use Rattle.st_rack.specs.Calls.{Devices, Has, Rises};
ghost use Rattle.st_commit.specs.Ready.{IsOf};
ghost use Rattle.st_image.specs.Bears.{newest_over};
ghost use Rattle.st_image.specs.Stands.{StandsFor};
ghost use Rattle.st_poolrec.specs.declared.record.PoolRec.{PoolRec};
ghost use Rattle.st_starting.specs.Found.{HasEnded, sized};

/// Devices on which nothing is found, or a pool that is gone, stand for none.
pub fn what_is_not_there()
    ensures nothing { (p : ℕ) (rack : Devices) (list : List Path) (c : Image) → Rises rack → ((d : Path) → IsOf list d → (n : ℕ) × Has rack d n) → newest_over p rack c ≡ None → newest_over p (sized rack list) c ≡ None }
    ensures gone { (p g : ℕ) (rec : PoolRec) (rack : Devices) (list : List Path) (c : Image) → Rises rack → ((d : Path) → IsOf list d → (n : ℕ) × Has rack d n) → HasEnded p rack list c g rec → StandsFor p (sized rack list) c None }
{}
