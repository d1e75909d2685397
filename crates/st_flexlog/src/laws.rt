//! Laws of deltas and of what a log says. They do nothing when they run.

ghost use Rattle.std.specs.Prelude.{◌≡◌, ◌+◌, ◌∷◌, ℕ, suc, List, Some, length};
ghost use Rattle.st_recrows.specs.Rows.{Spells};
ghost use Rattle.st_flexlog.specs.declared.delta.Delta.{Delta};
ghost use Rattle.st_flexlog.specs.declared.state.FlexState.{FlexState};
ghost use Rattle.st_flexlog.specs.Delta.{DeltaFits, delta_text, delta_of};
ghost use Rattle.st_flexlog.specs.Applied.{applied};
ghost use Rattle.st_flexlog.specs.Said.{Says};

/// A delta is read back from its spelling.
pub fn what_is_written_is_read()
    ensures { (d : Delta) (bytes : List ℕ) → Spells DeltaFits delta_text bytes d → delta_of bytes ≡ Some d }
{}

/// Bytes that are read as a delta are its spelling.
pub fn one_spelling()
    ensures { (d : Delta) (bytes : List ℕ) → delta_of bytes ≡ Some d → bytes ≡ delta_text d }
{}

/// A log says one state at most.
pub fn one_state()
    ensures { (c : ℕ) (body : List ℕ) (deltas : List (List ℕ)) (a b : FlexState) → Says c body deltas a → Says c body deltas b → a ≡ b }
{}

/// With one delta more a log says what that makes of the state before.
pub fn one_delta_more()
    ensures { (c : ℕ) (body : List ℕ) (deltas : List (List ℕ)) (before st : FlexState) (d : Delta) (bytes : List ℕ) → Says c body deltas before → Spells DeltaFits delta_text bytes d → applied (c + suc (length deltas)) d before ≡ Some st → Says c body (bytes ∷ deltas) st }
{}
