// Texts: a part by its start and length.
ghost use Rattle.std.specs.Prelude.{◌≡◌};
ghost use Rattle.combinators.specs.Part.{part};

// The `n` bytes or numbers of the store from `start` on, or as many as there are. Rows name a text by both numbers, and may name more than there is.
pub fn part_of<T>(store: &[T], start: usize, n: usize) -> &[T]
    ensures { result.now ≡ part store.now start n }
{
    let rest = &store[start.min(store.len())..];
    &rest[..n.min(rest.len())]
}
