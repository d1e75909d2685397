//! Laws of new pools. They do nothing when they run.

ghost use Rattle.std.specs.Prelude.{◌≡◌, ℕ};
ghost use Rattle.st_rack.specs.Device.{Image};
ghost use Rattle.st_books.specs.Ready.{stood};
ghost use Rattle.st_books.specs.declared.books.Books.{Books};
ghost use Rattle.st_making.specs.First.{AreNew};
ghost use Rattle.st_making.specs.Made.{IsFree, blank, made};

/// What books of a new pool and any image are is what the model makes of a call for that pool.
pub fn new_books_stand()
    ensures { (b : Books) (m : Image) → AreNew b → stood b m ≡ made b.rec }
{}

/// A device on which nothing was written is free for any pool.
pub fn a_blank_device_is_free()
    ensures { (p sectors : ℕ) → IsFree p sectors blank }
{}
