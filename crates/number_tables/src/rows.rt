/// Puts a row in the place of another, if there is one.
pub fn put<T: Copy>(rows: &mut [T], at: usize, row: T) {
    if at < rows.len() {
        rows[at] = row;
    }
}

/// A row, or this one where there is none.
pub fn row_or<T: Copy>(rows: &[T], at: usize, otherwise: T) -> T {
    match rows.get(at) {
        Some(row) => *row,
        None => otherwise,
    }
}
