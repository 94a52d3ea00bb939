//! Sizes: nodes and depth, each 2^64 - 1 where it would be more.

ghost use Rattle.std.specs.Prelude.{◌≡◌, ℕ, nat_le};
ghost use Rattle.htt_syntax_measure.specs.Measures.{told, nothing, leaf, beside, node, node_of_two, node_of_three, node_of_four, counted, deeper};

/// So many nodes may a tree have.
const NODE_LIMIT: u64 = 1_000_000;

/// So many nodes may stand on one path down a tree.
const DEPTH_LIMIT: u64 = 1_000;

/// The size of a tree, or of trees that stand side by side: the nodes of all of them, and the most nodes on one path
/// down. Both stop at 2^64 - 1.
#[derive(Clone, Copy, Debug, PartialEq, Eq)]
pub struct Size {
    pub nodes: u64,
    pub depth: u64,
}

impl Size {
    /// Of no tree.
    #[tactic(auto, unfolding(crate::specs::Measures::nothing))]
    pub fn nothing() -> Size
        ensures { result ≡ nothing }
    {
        Size { nodes: 0, depth: 0 }
    }

    /// Of a node without parts.
    #[tactic(auto, unfolding(crate::specs::Measures::leaf))]
    pub fn leaf() -> Size
        ensures { result ≡ leaf }
    {
        Size { nodes: 1, depth: 1 }
    }

    /// Of these trees and others beside them.
    #[tactic(auto, unfolding(crate::specs::Measures::beside))]
    pub fn beside(self, other: Size) -> Size
        ensures { result ≡ beside self other }
    {
        Size {
            nodes: self.nodes.saturating_add(other.nodes),
            depth: self.depth.max(other.depth),
        }
    }

    /// Of a node over these trees.
    #[tactic(auto, unfolding(crate::specs::Measures::node))]
    pub fn under_node(self) -> Size
        ensures { result ≡ node self }
    {
        Size {
            nodes: self.nodes.saturating_add(1),
            depth: self.depth.saturating_add(1),
        }
    }

    /// Of a node with two parts.
    #[tactic(auto, unfolding(crate::specs::Measures::node_of_two))]
    pub fn node_of_two(first: Size, second: Size) -> Size
        ensures { result ≡ node_of_two first second }
    {
        first.beside(second).under_node()
    }

    /// Of a node with three parts.
    #[tactic(auto, unfolding(crate::specs::Measures::node_of_three))]
    pub fn node_of_three(first: Size, second: Size, third: Size) -> Size
        ensures { result ≡ node_of_three first second third }
    {
        first.beside(second).beside(third).under_node()
    }

    /// Of a node with four parts.
    #[tactic(auto, unfolding(crate::specs::Measures::node_of_three, crate::specs::Measures::node_of_four))]
    pub fn node_of_four(first: Size, second: Size, third: Size, fourth: Size) -> Size
        ensures { result ≡ node_of_four first second third fourth }
    {
        first
            .beside(second)
            .beside(third)
            .beside(fourth)
            .under_node()
    }

    /// With one node more at the same depth.
    #[tactic(auto, unfolding(crate::specs::Measures::counted))]
    pub fn counted(self) -> Size
        ensures { result ≡ counted self }
    {
        Size {
            nodes: self.nodes.saturating_add(1),
            depth: self.depth,
        }
    }

    /// One level deeper.
    #[tactic(auto, unfolding(crate::specs::Measures::deeper))]
    pub fn deeper(self) -> Size
        ensures { result ≡ deeper self }
    {
        Size {
            nodes: self.nodes,
            depth: self.depth.saturating_add(1),
        }
    }

    /// Whether there are at most 1,000,000 nodes.
    #[tactic(auto, using(crate::proofs::Limits::few_nodes))]
    pub fn has_few_nodes(self) -> bool
        ensures { (nodes depth : ℕ) → self ≡ told nodes depth → result ≡ nat_le nodes 1_000_000 }
    {
        self.nodes <= NODE_LIMIT
    }

    /// Whether at most 1,000 nodes stand on each path down.
    #[tactic(auto, using(crate::proofs::Limits::flat))]
    pub fn is_flat(self) -> bool
        ensures { (nodes depth : ℕ) → self ≡ told nodes depth → result ≡ nat_le depth 1_000 }
    {
        self.depth <= DEPTH_LIMIT
    }
}
