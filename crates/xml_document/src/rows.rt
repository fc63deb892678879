// Rows that were not checked.
use common::node_kind::NodeKind;
use std::alloc::{AllocError, Global};

/// A node: its kind, the row of its parent, the numbers of its name and of its namespace, 0 for none, and the line
/// where it begins. The name is the local part; an instruction's is its target.
#[derive(Clone, Copy, Debug)]
pub struct Node {
    pub kind: NodeKind,
    pub parent: u32,
    pub name: u32,
    pub namespace: u32,
    pub line: u32,
}

/// Nodes in document order, by columns: 17 bytes a node, and twice as many while they grow.
#[derive(Debug, Drop)]
pub struct Rows {
    pub kinds: Vec<u8>,
    pub parents: Vec<u32>,
    pub names: Vec<u32>,
    pub namespaces: Vec<u32>,
    pub lines: Vec<u32>,
}

impl Rows {
    pub fn new(alloc: Global) -> Rows {
        Rows {
            kinds: Vec::new(alloc),
            parents: Vec::new(alloc),
            names: Vec::new(alloc),
            namespaces: Vec::new(alloc),
            lines: Vec::new(alloc),
        }
    }

    pub fn len(&self) -> usize {
        self.kinds.len()
    }

    pub fn is_empty(&self) -> bool {
        self.kinds.is_empty()
    }

    /// Adds a row. After an error the columns may differ in length, and no document is made of them.
    pub fn push(&mut self, node: Node) -> Result<(), AllocError> {
        self.kinds.push(node.kind as u8)?;
        self.parents.push(node.parent)?;
        self.names.push(node.name)?;
        self.namespaces.push(node.namespace)?;
        self.lines.push(node.line)?;
        Ok(())
    }
}
