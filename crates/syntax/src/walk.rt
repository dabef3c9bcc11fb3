// Going forward in lent rows, whatever numbers they hold: a place behind the end is the end.
ghost use Rattle.std.specs.Prelude.{◌≡◌, ◌+◌, ◌≤◌, length, drop};
ghost use Rattle.syntax.specs.Stream.{reached};

// The place `k` numbers behind `at`, or the end of the rows.
pub fn forward(rows: &[u32], at: usize, k: usize) -> usize
    ensures value { result ≡ reached (length rows.now) (at + k) }
    ensures rows_value { drop result rows.now ≡ drop (at + k) rows.now }
    ensures upper_bound { result ≤ length rows.now }
{
    at.saturating_add(k).min(rows.len())
}
