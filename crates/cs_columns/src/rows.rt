// The rows of a column, read past its end too.
ghost use Rattle.std.specs.Prelude.{◌≡◌, get_or};

// The row at k, and past the end a number above every row: with an Option each turn of a merge would be four cases for the three that it has.
pub fn row_at(rows: &[u32], k: usize) -> u32
    ensures { result ≡ get_or rows.now k 4294967295 }
{
    rows.get(k).copied().unwrap_or(u32::MAX)
}
