use bw_keys::Fence;
use bw_step::Leaf;

/// Returns whether the leaves' ranges partition the keys.
pub fn partition_the_keys(leaves: &[Leaf]) -> bool {
    let mut end = Fence::Key(0);
    for leaf in leaves {
        if Fence::Key(leaf.range.low) != end || !leaf.range.holds(leaf.range.low) {
            return false;
        }
        end = leaf.range.high;
    }
    end == Fence::Top
}
