// Counts in a tree, so that the leaf of the k-th thing that is there is found in logarithmic time.
ghost use Rattle.std.specs.Prelude.{◌≡◌, ◌≢◌, ◌<◌, ◌≤◌, ◌+◌, ◌*◌, ◌^◌, ℕ, suc, length};
ghost use Rattle.icn_structs.specs.Counts.{count_at, counts_from, IsSummed, IsPowerOfTwo};

/// Counts one more at a leaf, and in all entries above it.
pub fn raise(counts: &mut Vec<usize>, width: usize, leaf: usize)
    requires leaf { leaf < width }
    requires width { length counts.old.items ≡ 2 * width }
    requires summed { IsSummed counts.old.items width }
    requires small { (index : ℕ) → count_at counts.old.items index < 2 ^ 63 }
    ensures summed { IsSummed counts.new.items width }
    ensures leaf { count_at counts.new.items (width + leaf) ≡ suc (count_at counts.old.items (width + leaf)) }
    ensures others { (index : ℕ) → width ≤ index → index ≢ width + leaf
        → count_at counts.new.items index ≡ count_at counts.old.items index }
    ensures risen { (index : ℕ) → count_at counts.new.items index ≤ suc (count_at counts.old.items index) }
    ensures same_length { length counts.new.items ≡ length counts.old.items }
{
    let mut node = width + leaf;
    while node > 0 {
        counts[node] += 1;
        node /= 2;
    }
}

/// Counts one less at a leaf that has one, and in all entries above it.
pub fn lower(counts: &mut Vec<usize>, width: usize, leaf: usize)
    requires leaf { leaf < width }
    requires width { length counts.old.items ≡ 2 * width }
    requires summed { IsSummed counts.old.items width }
    requires counted { 0 < count_at counts.old.items (width + leaf) }
    ensures summed { IsSummed counts.new.items width }
    ensures leaf { suc (count_at counts.new.items (width + leaf)) ≡ count_at counts.old.items (width + leaf) }
    ensures others { (index : ℕ) → width ≤ index → index ≢ width + leaf
        → count_at counts.new.items index ≡ count_at counts.old.items index }
    ensures fallen { (index : ℕ) → count_at counts.new.items index ≤ count_at counts.old.items index }
    ensures same_length { length counts.new.items ≡ length counts.old.items }
{
    let mut node = width + leaf;
    while node > 0 {
        counts[node] -= 1;
        node /= 2;
    }
}

/// The leaf at which the sum of the leaves before it is at most this number, and with its own count is more.
pub fn leaf_of(counts: &[usize], width: usize, number: usize) -> usize
    requires width { length counts.now ≡ 2 * width }
    requires power { IsPowerOfTwo width }
    requires summed { IsSummed counts.now width }
    requires counted { number < count_at counts.now 1 }
    ensures leaf { result < width }
    ensures before { counts_from counts.now width result ≤ number }
    ensures within { number < counts_from counts.now width result + count_at counts.now (width + result) }
{
    let mut node = 1;
    let mut span = width;
    let mut leaf = 0;
    let mut left = number;
    while span > 1 {
        span /= 2;
        node *= 2;
        let here = counts[node];
        if here <= left {
            left -= here;
            node += 1;
            leaf += span;
        }
    }
    leaf
}
