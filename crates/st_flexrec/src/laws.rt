//! Laws of the spellings. They do nothing when they run.

ghost use Rattle.std.specs.Prelude.{◌≡◌, ◌++◌, ℕ, List, Result};
ghost use Rattle.st_recrows.specs.declared.fault.RecFault.{RecFault};
ghost use Rattle.st_recrows.specs.Rows.{Reads, Spells, Gives};
ghost use Rattle.st_flexrec.specs.declared.record.FlexRec.{FlexRec};
ghost use Rattle.st_flexrec.specs.Conditions.{IsFlexRec};
ghost use Rattle.st_flexrec.specs.Record.{RecFits, record_text};

/// No spelling begins another: bytes begin with the spelling of one value at most.
pub fn one_spelling()
    ensures { (a b : FlexRec) (x y : List ℕ) → RecFits a → RecFits b → record_text a ++ x ≡ record_text b ++ y → (a ≡ b) × (x ≡ y) }
{}

/// `decode` gives back what `encode` wrote, at each generation that may have made it, or finds no memory.
pub fn what_is_written_is_read()
    ensures { (g : ℕ) (rec : FlexRec) (bytes : List ℕ) (read : Result FlexRec RecFault) → Spells (IsFlexRec g) record_text bytes rec → Reads (Spells (IsFlexRec g) record_text bytes) read → Gives rec read }
{}
