// A node as its operator has it: the mark of its limit is 0 or 1, and an absent limit has number 0.
ghost use Rattle.std.specs.Prelude.{◌≡◌};
ghost use Rattle.exchange.specs.Rows.{node_of, operator_of};

use crate::row::Node;

// The node, and that it is so.
#[derive(Clone, Copy)]
pub struct Settled {
    pub node: Node,
    pub ghost legal: { node_of (operator_of node) ≡ node },
}
