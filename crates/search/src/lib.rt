// Searches of a plan's graph: the order of search, its soundness, and the depth-first tree.
#![tactic(auto)]

mod arcs;
pub mod digraphs;
mod frontier;
pub mod laws;
pub mod orders;
pub mod shapes;
pub mod soundness;
pub mod spanning;
pub mod trees;

pub use digraphs::Digraph;
pub use orders::Order;
pub use plan::Graph;
pub use shapes::ShapeFault;
pub use soundness::sound_order;
pub use spanning::{closed_links, depth_first};
pub use trees::{Tree, Visit};
