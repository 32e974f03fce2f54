// Number 7, where a matrix is to be written.
ghost use Rattle.std.specs.Prelude.{◌≡◌};
ghost use Rattle.cs_matrix.specs.Matrix.{short_by};

// An output is shorter than needed: ncols + 1 pointers, and a row and a value for each entry.
#[tactic(auto, unfolding(crate::specs::Matrix::short_by))]
pub fn too_short(ncols: usize, entries: usize, plen: usize, ilen: usize, vlen: usize) -> bool
    ensures { result ≡ short_by ncols entries plen ilen vlen }
{
    plen <= ncols || ilen < entries || vlen < entries
}
