// Whether slices hold L, told without counting its columns: each entry of U is looked for at the next place of its row, from the
// pointers that are held.
ghost use Rattle.std.specs.Prelude.{◌≡◌, ℕ, ◌+◌, ◌<◌, ◌≤◌, true, false, ◌&&◌, List, length, slice_index};
ghost use mathlib.Core.List.{flatten};
ghost use Rattle.lists.proofs.Standing.{Standing};
ghost use Rattle.lists.specs.Keeping.{Kept};
ghost use Rattle.lists.specs.Keys.{by_key};
ghost use Rattle.lists.specs.Order.{starts_with};
ghost use Rattle.cs_tree.specs.Backward.{Stood};
ghost use Rattle.cs_tree.specs.Pattern.{transposed, starts, entries};
ghost use Rattle.cs_tree.specs.Steps.{Whole, Spread, Spreads, numbers};
ghost use Rattle.cs_pattern.specs.Steps.{Looked};

use crate::compare::Analysis;
use lists::numbers::wide;
use lists::order::starts_with;
use lists::sides::copy;

// Each of the rows has k at its next place.
fn look_column(k: u32, rows: &[u32], next: &mut [u32], li: &[u32]) -> bool
    requires { (length li.now ≤ 4194304) × ((m : ℕ) → m < length rows.now → slice_index rows.now m < length next.old) }
    ensures { (result ≡ true → Stood k rows.now li.now next.old next.new (length rows.now))
        × ((s : Spread k rows.now next.old li.now) → Looked s result next.new li.now) }
{
    for &row in rows {
        let j = wide(row);
        let t = wide(next[j]);
        if t >= li.len() || li[t] != k {
            return false;
        }
        next[j] += 1;
    }
    true
}

// The columns of U one by one.
fn look_columns(n: usize, up: &[u32], ui: &[u32], next: &mut [u32], li: &[u32]) -> bool
    requires { Whole n (length li.now) up.now ui.now × (length next.old ≡ n) }
    ensures { (result ≡ true → (w : Whole n (length li.now) up.now ui.now) (held : List ℕ)
        → Standing 0 n (flatten w.us) (numbers 0 w.us) held li.now next.old 0
        → Standing 0 n (flatten w.us) (numbers 0 w.us) held li.now next.new (entries w.us))
        × (result ≡ false → (s : Spreads n up.now ui.now next.old li.now)
        → false ≡ starts_with (by_key n (flatten s.us) (numbers 0 s.us)) li.now) }
{
    for k in 0..n {
        let b = wide(up[k]);
        let f = wide(up[k + 1]);
        if !look_column(k as u32, &ui[b..f], next, li) {
            return false;
        }
    }
    true
}

// L, with the t entries of U, is what lp and li hold.
pub fn look(n: usize, t: usize, given: Analysis<'_>, w: &mut [u32]) -> bool
    requires { Whole n t given.up.now given.ui.now × (n ≤ length w.old) }
    ensures { ((u : Whole n t given.entry.up.now given.entry.ui.now)
        → result ≡ (starts_with (starts 0 (transposed u.us)) given.entry.lp.now && starts_with (flatten (transposed u.us)) given.entry.li.now))
        × Kept 0 n w.old w.new }
{
    let Analysis { up, ui, lp, li, .. } = given;
    if lp.len() <= n || lp[0] != 0 || li.len() < t {
        return false;
    }
    copy(&lp[0..n], w);
    look_columns(n, up, ui, &mut w[0..n], &li[0..t]) && starts_with(&lp[1..=n], w)
}
