//! Laws of the header's form. They do nothing when they run.

ghost use Rattle.std.specs.Prelude.{◌≡◌, ◌+◌, ◌*◌, ◌<◌, ◌≤◌, ◌^◌, ◌↔◌, ◌++◌, ℕ, List, Some, None, length};
ghost use Rattle.st_fields.specs.Fields.{put_over};
ghost use Rattle.st_header.specs.Header.{header_text, copy_of, header_of, sector_of, IsCopy, IsSerial};

/// A sector reads as this serial exactly where it is the spelling of it.
pub fn reading_is_the_grammar()
    ensures { (sectors n : ℕ) (bytes : List ℕ) → (copy_of sectors bytes ≡ Some n) ↔ IsCopy sectors bytes n }
{}

/// No spelling begins another.
pub fn one_spelling()
    ensures { (n m s t : ℕ) (rest more : List ℕ) → n < 2 ^ 64 → m < 2 ^ 64 → s < 2 ^ 64 → t < 2 ^ 64 → header_text n s ++ rest ≡ header_text m t ++ more → (n ≡ m) × (s ≡ t) }
{}

/// What is written over the copy at sector 1 is read back, whatever the copy at sector 9 holds.
pub fn what_is_written_is_read()
    ensures { (sectors n : ℕ) (area : List ℕ) → length area ≡ 8192 → 8192 ≤ sectors → IsSerial n → header_of sectors (put_over area 512 (header_text n sectors)) ≡ Some n }
{}
