ghost use Rattle.std.specs.Prelude.{◌≡◌, take, drop};

/// The first `n` items, or all where there are fewer.
pub fn firsts<T>(items: &[T], n: usize) -> &[T]
    ensures { result.now ≡ take n items.now }
{
    if n < items.len() { &items[..n] } else { items }
}

/// What follows the first `n` items.
pub fn rest<T>(items: &[T], n: usize) -> &[T]
    ensures { result.now ≡ drop n items.now }
{
    if n < items.len() {
        &items[n..]
    } else {
        &items[items.len()..]
    }
}
