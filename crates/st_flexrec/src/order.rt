ghost use Rattle.std.specs.Prelude.{◌≡◌, Bool, true};
ghost use Rattle.std.specs.Bool.{Decides};
ghost use Rattle.st_flexrec.specs.Order.{Rises};

/// Rows that stand in a fixed order.
pub trait InOrder: Sized {
    /// Whether a row stands before another.
    ghost comes_before: { Self → Self → Bool };

    /// Whether this row stands before the other one.
    fn is_before(&self, later: &Self) -> bool
        ensures { result ≡ comes_before self.now later.now };

    ghost goes_on: { (a b c : Self) → comes_before a b ≡ true → comes_before b c ≡ true → comes_before a c ≡ true };
}

/// Whether each row comes before all later ones: each is compared with the next alone.
pub fn rises<R: InOrder>(rows: &[R]) -> bool
    ensures { Decides result (Rises R.comes_before rows.now) }
{
    rows.is_sorted_by(|row, next| row.is_before(next))
}
