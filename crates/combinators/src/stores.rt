// Lent stores. A writer asks for no room: what does not fit is left out, and the fill then stands one above the length.
ghost use Rattle.std.specs.Prelude.{◌≡◌, ◌<◌, ◌+◌, ◌^◌, [], ◌∷◌, length, get_or};
ghost use Rattle.combinators.specs.Store.{emits, filled_from, filled_part};

// One byte or number at `fill`; the fill behind it. The bound, which each store of bytes or numbers meets, is for elements without a size.
#[tactic(auto, unfolding(crate::specs::Store::emits, crate::specs::Store::step, crate::specs::Choice::pick))]
pub fn emit<T: Copy>(x: T, store: &mut [T], fill: usize) -> usize
    requires { length store.old < 2 ^ 63 }
    ensures { record { bytes = store.new; fill = result } ≡ emits (record { bytes = store.old; fill = fill }) (x ∷ []) }
{
    if fill < store.len() {
        store[fill] = x;
        fill + 1
    } else {
        store.len() + 1
    }
}

// All of `xs` from `fill` on, one behind the other; the fill behind them. A loop over `emit`, since `copy_from_slice` would have to be told what fits, and the
// fill past the end a second time.
pub fn emit_all<T: Copy>(xs: &[T], store: &mut [T], fill: usize) -> usize
    requires { length store.old < 2 ^ 63 }
    ensures { record { bytes = store.new; fill = result } ≡ emits (record { bytes = store.old; fill = fill }) xs.now }
{
    let mut f = fill;
    for x in xs {
        f = emit(*x, store, f);
    }
    f
}

// The number `k` places behind `at`, or 0 past the end: no `Option`, since rows may hold any number, so that who reads one is right for a 0 too.
pub fn number_at(rows: &[u32], at: usize, k: usize) -> u32
    ensures { result ≡ get_or rows.now (at + k) 0 }
{
    rows.get(at.saturating_add(k)).copied().unwrap_or(0)
}

// One value from a place on.
pub fn fill_from<T: Copy>(store: &mut [T], from: usize, value: T)
    requires infallible { T.is_infallible value }
    requires copied { (y : T) → T.is_clone value y → y ≡ value }
    ensures { store.new ≡ filled_from value from store.old }
{
    let start = from.min(store.len());
    store[start..].fill(value);
}

// One value `n` times from a place on, as far as the store goes.
pub fn fill_part<T: Copy>(store: &mut [T], from: usize, n: usize, value: T)
    requires infallible { T.is_infallible value }
    requires copied { (y : T) → T.is_clone value y → y ≡ value }
    ensures { store.new ≡ filled_part value from n store.old }
{
    let start = from.min(store.len());
    let end = start + n.min(store.len() - start);
    store[start..end].fill(value);
}
