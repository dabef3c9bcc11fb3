// Texts moved within the store.
ghost use Rattle.std.specs.Prelude.{◌≡◌};
ghost use Rattle.std.proofs.lemmas.List.Edits.{sets};
ghost use Rattle.combinators.specs.Part.{part};
ghost use Rattle.declarations.specs.Moved.{Downward};

// Moves the `n` bytes from `from` on down to `to`. One call of the library, in a function of its own since its clause says `part` and `sets`, which
// two callers need.
pub fn move_down(store: &mut [u8], from: usize, to: usize, n: usize)
    requires { Downward store.old from to n }
    ensures { store.new ≡ sets store.old to (part store.old from n) }
{
    store.copy_within(from..from + n, to);
}
