//! Laws of the spellings. They do nothing when they run.

ghost use Rattle.std.specs.Prelude.{◌≡◌, ◌++◌, ℕ, List, Result};
ghost use Rattle.st_recrows.specs.declared.fault.RecFault.{RecFault};
ghost use Rattle.st_recrows.specs.Rows.{Reads, Spells, Gives};
ghost use Rattle.st_poolrec.specs.declared.record.PoolRec.{PoolRec};
ghost use Rattle.st_poolrec.specs.Record.{IsPoolRec, record_text};

/// No spelling begins another: bytes begin with the spelling of one record at most.
pub fn one_spelling()
    ensures { (a b : PoolRec) (x y : List ℕ) → IsPoolRec a → IsPoolRec b → record_text a ++ x ≡ record_text b ++ y → (a ≡ b) × (x ≡ y) }
{}

/// `decode` gives back what `encode` wrote, or finds no memory.
pub fn what_is_written_is_read()
    ensures { (rec : PoolRec) (bytes : List ℕ) (read : Result PoolRec RecFault) → Spells IsPoolRec record_text bytes rec → Reads (Spells IsPoolRec record_text bytes) read → Gives rec read }
{}
