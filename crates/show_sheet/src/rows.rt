// Rows as slices: a count that a row tells, made two slices once.

/// The first `n` numbers of rows, or as many as there are, and those behind them.
pub fn cut(rows: &[u32], n: usize) -> (&[u32], &[u32]) {
    rows.split_at(n.min(rows.len()))
}
