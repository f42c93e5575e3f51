// A text's first row, and what is behind it.
ghost use Rattle.std.specs.Prelude.{◌≡◌, ◌+◌, ◌<◌, ◌≤◌, [], ◌∷◌, length, MatchOption};
ghost use Rattle.ms_read.specs.Rows.{row_len, rows_of};

fn count_row(bytes: &[u8]) -> usize
    ensures within { result ≤ length bytes.now }
    ensures first { result ≡ row_len bytes.now }
{
    for (i, b) in bytes.iter().enumerate() {
        if *b == b'\n' {
            return i;
        }
    }
    bytes.len()
}

// The first row without its line feed, and the bytes of the other rows.
pub fn next_row(bytes: &[u8]) -> Option<(&[u8], &[u8])>
    ensures rows { MatchOption result (bytes.now ≡ [])
        (λ found. rows_of bytes.now ≡ found.0.now ∷ rows_of found.1.now) }
    ensures shorter { MatchOption result (bytes.now ≡ [])
        (λ found. length found.0.now + length found.1.now ≤ length bytes.now) }
    ensures fewer { MatchOption result (bytes.now ≡ [])
        (λ found. length found.1.now < length bytes.now) }
{
    if bytes.is_empty() {
        return None;
    }
    let (row, end) = bytes.split_at(count_row(bytes));
    match end {
        [] => Some((row, end)),
        [_, rest @ ..] => Some((row, rest)),
    }
}
