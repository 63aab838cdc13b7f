//! A set of nodes of a plan.

ghost use Rattle.std.specs.Prelude.{◌≡◌, ◌≢◌, ◌<◌, ℕ, true, false};
ghost use Rattle.sabr_model.specs.routes.Following.{has_index, most_nodes};

/// The number of words: a plan has at most 40000 nodes.
const WORDS: usize = 625;

/// Nodes of a plan, each by its index in the table of nodes, which is below 40000. A bit says whether it is in the set.
#[derive(Clone, Copy)]
pub struct NodeSet {
    words: [u64; WORDS],
}

impl NodeSet {
    /// Returns the empty set.
    pub fn new() -> NodeSet
        ensures { (k : ℕ) → has_index result k ≡ false }
    {
        NodeSet { words: [0; WORDS] }
    }

    /// Whether the node at this index is in the set.
    pub fn contains(&self, index: usize) -> bool
        requires { index < most_nodes }
        ensures { result ≡ has_index self.now index }
    {
        (self.words[index / 64] >> (index % 64)) & 1 == 1
    }

    /// Puts the node at this index into the set.
    pub fn insert(&mut self, index: usize)
        requires { index < most_nodes }
        ensures this { has_index self.new index ≡ true }
        ensures others { (k : ℕ) → k ≢ index → has_index self.new k ≡ has_index self.old k }
    {
        self.words[index / 64] |= 1 << (index % 64);
    }
}
