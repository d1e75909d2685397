//! Laws of what a device says. They do nothing when they run.

ghost use Rattle.std.specs.Prelude.{◌≡◌, ℕ};
ghost use Rattle.st_rack.specs.Story.{Content};
ghost use Rattle.st_deltalog.specs.declared.area.FlexArea.{FlexArea};
ghost use Rattle.st_flexlog.specs.declared.state.FlexState.{FlexState};
ghost use Rattle.st_flexat.specs.FlexAt.{FlexAt};
ghost use Rattle.st_flexat.specs.Mapped.{AreMapped};

/// A device says one state at most of a serial and a generation.
pub fn one_state()
    ensures { (flex : FlexArea) (p g : ℕ) (f : Content) (a b : FlexState) → FlexAt flex p g f a → FlexAt flex p g f b → a ≡ b }
{}

/// The mappings that a device says are those of a pool: no more than may be, in order, with a place of its own for each cell.
pub fn what_is_mapped()
    ensures { (flex : FlexArea) (p g : ℕ) (f : Content) (st : FlexState) → FlexAt flex p g f st → AreMapped st.next_cell st.mappings }
{}
