//! The first number in T whose places in F and G are greater than two given ones.

ghost use Rattle.std.specs.Prelude.{◌≡◌, ℕ, ◌*◌, ◌<◌, ◌≤◌, ◌^◌, None, Some, true, false, length};
ghost use Rattle.kin_rank.specs.Finding.{IsBelow, IsBeyond, IsFirstOf, IsNoLater};
ghost use Rattle.kin_rank.specs.Leading.{place_in};
ghost use Rattle.kin_rank.specs.Ranking.{first_in};
ghost use Rattle.kin_rank.specs.Sound.{ranking, IsSound, IsUnderAfter};
ghost use Rattle.kin_rank.specs.Trees.{IsAt};

use crate::lists::Lists;

/// Whether a number comes before the best one so far.
fn is_better(t: &[u32], no: u32, best: Option<u32>) -> bool
    requires no { no < length t.now }
    requires best { IsBelow (length t.now) best }
    ensures better { result ≡ true → (b : ℕ) → best ≡ Some b → place_in t.now no ≤ place_in t.now b }
    ensures worse { result ≡ false → IsNoLater t.now best no }
{
    let Some(best) = best else {
        return true;
    };
    t[no as usize] < t[best as usize]
}

impl Lists {
    /// Of the numbers under a node whose places in G are greater than one, and of the best so far, the first in T. A
    /// node is passed over where none of its numbers has such a place in G, or none comes before the best.
    fn walk(&self, node: usize, height: u32, g_above: u32, best: Option<u32>) -> Option<u32>
        requires sound { IsSound self.now }
        requires tree { 0 < length self.now.tree.nodes.items }
        requires node { IsAt (2 ^ self.now.size) height node }
        requires best { IsBelow (2 ^ self.now.size) best }
        ensures first { IsFirstOf self.now.t.places.items best (IsUnderAfter self.now height node g_above) result }
        ensures below { IsBelow (2 ^ self.now.size) result }
    {
        let Some(leaders) = self.tree.nodes[node] else {
            return best;
        };
        if self.g.places[leaders.last_in_g as usize] <= g_above {
            return best;
        }
        if !is_better(&self.t.places, leaders.first_in_t, best) {
            return best;
        }
        if height == 0 {
            return Some(leaders.first_in_t);
        }
        let best = self.walk(2 * node, height - 1, g_above, best);
        self.walk(2 * node + 1, height - 1, g_above, best)
    }

    /// The first by the tree. The places after one in F are those under the right halves beside the way up from its
    /// leaf.
    pub fn first_by_tree(&self, f_above: u32, g_above: u32) -> Option<u32>
        requires sound { IsSound self.now }
        requires tree { 0 < length self.now.tree.nodes.items }
        ensures { IsFirstOf self.now.t.places.items None (IsBeyond self.now.f.items.items self.now.g.places.items f_above g_above) result }
    {
        if f_above as usize >= self.f.items.len() {
            return None;
        }
        let mut node = self.f.places.len() + f_above as usize;
        let mut best = None;
        for height in 0..self.size {
            if node % 2 == 0 {
                best = self.walk(node + 1, height, g_above, best);
            }
            node /= 2;
        }
        best
    }

    /// The first by a scan of T.
    pub fn first_by_scan(&self, f_above: u32, g_above: u32) -> Option<u32>
        requires { IsSound self.now }
        ensures { IsFirstOf self.now.t.places.items None (IsBeyond self.now.f.items.items self.now.g.places.items f_above g_above) result }
    {
        for no in &self.t.items {
            if self.f.places[*no as usize] > f_above && self.g.places[*no as usize] > g_above {
                return Some(*no);
            }
        }
        None
    }

    /// The first, by the tree where there is one.
    pub fn first_in(&self, f_above: u32, g_above: u32) -> Option<u32>
        requires { IsSound self.now }
        ensures { result ≡ first_in (ranking self.now) f_above g_above }
    {
        if self.tree.is_there() {
            self.first_by_tree(f_above, g_above)
        } else {
            self.first_by_scan(f_above, g_above)
        }
    }
}
