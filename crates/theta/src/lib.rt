// A tree of 32 leaves, for every kind of node.
#![tactic(auto)]

mod lifted;
mod node;
mod refusals;
pub mod tree;

pub use lifted::Lifted;
pub use node::{Node, ThetaLambdaNode, ThetaNode};
pub use refusals::{LeafRefusal, TreeRefusal};
