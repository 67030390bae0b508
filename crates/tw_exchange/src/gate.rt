//! What is told of orders.

/// Is told of each order, by its component, before it is worked out.
pub trait Gate {
    fn enter(&self, component: usize);
}

/// A gate that lets everyone pass.
#[derive(Clone, Copy, Debug)]
pub struct Open;

impl Gate for Open {
    fn enter(&self, _component: usize) {}
}
