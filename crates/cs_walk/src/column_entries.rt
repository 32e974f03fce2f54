// The walker over one column: it holds the column's row part and value part and the position of the next entry. Each function
// over it takes it apart and leaves the work to a step on a number and two slices. `next_entry` takes the parts and the
// position themselves, for callers that hold no walker.
ghost use Rattle.std.specs.Prelude.{⊤, ◌≡◌, length, take};
ghost use Rattle.std.specs.Iterator.{YieldsFirst, MakesProgress, item_count};
ghost use Rattle.lists.specs.Choices.{some};
ghost use Rattle.lists.specs.Refusals.{numbered};
ghost use Rattle.cs_walk.specs.Walk.{number, checked, left, first, told, after, walked, moved, Whole, step};

use lists::refusal::Refusal;

#[derive(Clone, Copy)]
pub struct ColumnEntries<'a, 'b> {
    curr: usize,
    i: &'a [u32],
    v: &'b [f64],
}

// What one step of a walk tells.
#[derive(Clone, Copy)]
pub struct Step {
    pub answer: Result<(), Refusal>,
    pub entry: Option<(u32, f64)>,
    pub curr: usize,
    pub left: usize,
}

// Parts of unequal lengths are refused.
pub fn check_parts(i: &[u32], v: &[f64]) -> Result<(), Refusal>
    ensures { (numbered result ≡ number i.now v.now) × (result ≡ checked i.now v.now) }
{
    if i.len() != v.len() {
        return Err(Refusal::Disagree);
    }
    Ok(())
}

// The parts have equal lengths, and an entry stands at the position.
#[tactic(auto, using(crate::proofs::Walking::none_refused, crate::proofs::Walking::one_there))]
fn entry_there(curr: usize, i: &[u32], v: &[f64]) -> bool
    ensures { result ≡ some (left curr i.now v.now) }
{
    check_parts(i, v).is_ok() && curr < i.len()
}

// The entry at a position, or the end.
fn entry_at(curr: usize, i: &[u32], v: &[f64]) -> Option<(u32, f64)>
    ensures { result ≡ first (left curr i.now v.now) }
{
    if entry_there(curr, i, v) {
        Some((i[curr], v[curr]))
    } else {
        None
    }
}

// The position behind it.
fn curr_after(curr: usize, i: &[u32], v: &[f64]) -> usize
    ensures { result ≡ after curr i.now v.now }
{
    if entry_there(curr, i, v) {
        curr + 1
    } else {
        curr
    }
}

// How many entries are left from a position.
fn left_at(curr: usize, i: &[u32], v: &[f64]) -> usize
    ensures { result ≡ length (left curr i.now v.now) }
{
    if entry_there(curr, i, v) {
        i.len() - curr
    } else {
        0
    }
}

impl<'a, 'b> ColumnEntries<'a, 'b> {
    // A walker at the start of a column's parts.
    pub fn new(i: &'a [u32], v: &'b [f64]) -> ColumnEntries<'a, 'b>
        ensures { (result.curr ≡ 0) × (result.i ≡ i.entry) × (result.v ≡ v.entry) × Whole i.now v.now result }
    {
        ColumnEntries { curr: 0, i, v }
    }

    // Parts of unequal lengths are refused.
    pub fn check(self) -> Result<(), Refusal>
        ensures { (numbered result ≡ number self.entry.i.now self.entry.v.now) × (result ≡ checked self.entry.i.now self.entry.v.now) }
    {
        check_parts(self.i, self.v)
    }

    // How many entries are left.
    pub fn len(self) -> usize
        ensures { result ≡ length (left self.entry.curr self.entry.i.now self.entry.v.now) }
    {
        left_at(self.curr, self.i, self.v)
    }
}

impl Iterator for ColumnEntries<'_, '_> {
    type Item = (u32, f64);

    ghost next_gives = { YieldsFirst walked };

    ghost remaining = { item_count walked };

    // The next entry, or the end, for ever.
    fn next(&mut self) -> Option<(u32, f64)>
        ensures steps { YieldsFirst walked self.old result self.new }
        ensures goes { MakesProgress (λ _. ⊤) (item_count walked) self.old result self.new }
        ensures first { (result ≡ first (walked self.old)) × (told result ≡ take 1 (walked self.old)) × (self.new ≡ moved self.old) }
    {
        let ColumnEntries { curr, i, v } = *self;
        self.curr = curr_after(curr, i, v);
        entry_at(curr, i, v)
    }
}

// One step of a walk from a position: what the walker says of the parts, the entry there or the end, the position behind it,
// and how many entries are left from there.
pub fn next_entry(curr: usize, i: &[u32], v: &[f64]) -> Step
    ensures { (numbered result.answer ≡ number i.now v.now) × (result ≡ step curr i.now v.now) ×
        (told result.entry ≡ take 1 (left curr i.now v.now)) }
{
    let mut entries = ColumnEntries::new(i, v);
    entries.curr = curr;
    let answer = entries.check();
    let entry = entries.next();
    Step {
        answer,
        entry,
        curr: entries.curr,
        left: entries.len(),
    }
}
