use crate::cell_id::CellId;
use crate::text::Text;
use crate::words::Target;
use seq_vector::{NoMemory, PVec, Share, Shared};

/// One shared value.
pub type Held = Shared<Value>;

/// A value of a script. What holds values keeps beside them how deep it is itself.
#[cycle(values)]
#[derive(Drop)]
pub enum Value {
    Nil,
    Bool(bool),
    Int(i64),
    /// A keyword, by its name without the colon.
    Keyword(Text),
    Text(Text),
    Vector { depth: u32, items: PVec<Value> },
    Function(FnValue),
    Node(Node),
    /// A value that ends a reduction.
    Reduced { depth: u32, value: Held },
    /// A part, by its number: a lazy cell or a future.
    Cell(CellId),
}

/// A sequence whose first element is there. What holds values keeps its own depth.
#[cycle(values)]
#[derive(Drop)]
pub enum Node {
    /// The empty list `()`.
    Empty,
    /// Leading elements, the first element last, before a rest.
    Cons {
        depth: u32,
        heads: PVec<Value>,
        rest: Held,
    },
    /// A chunk of elements, the first element first, before a rest.
    Chunk {
        depth: u32,
        items: PVec<Value>,
        rest: Held,
    },
    /// The integers from `at` up to `end`, which it leaves out. The range began at `from`.
    Range {
        from: i64,
        at: i64,
        end: i64,
    },
    /// The items of a vector from place `at` on.
    VecSeq {
        depth: u32,
        items: PVec<Value>,
        at: u32,
    },
}

/// A function with the arguments that are bound to it.
#[cycle(values)]
#[derive(Drop)]
pub struct FnValue {
    /// What is called.
    pub target: Target,
    /// How deep the function is: one more than the deepest that is bound.
    pub depth: u32,
    /// The bound arguments in order.
    pub bound: PVec<Value>,
}

/// At most two atomic increments, whatever the value holds.
impl Share for Value {
    fn share(&self) -> Result<Value, NoMemory> {
        Ok(match self {
            Value::Nil => Value::Nil,
            Value::Bool(truth) => Value::Bool(*truth),
            Value::Int(number) => Value::Int(*number),
            Value::Keyword(name) => Value::Keyword(name.share()?),
            Value::Text(text) => Value::Text(text.share()?),
            Value::Vector { depth, items } => Value::Vector {
                depth: *depth,
                items: items.share()?,
            },
            Value::Function(function) => Value::Function(function.share()?),
            Value::Node(node) => Value::Node(node.share()?),
            Value::Reduced { depth, value } => Value::Reduced {
                depth: *depth,
                value: value.share()?,
            },
            Value::Cell(id) => Value::Cell(*id),
        })
    }
}

/// At most two atomic increments, whatever the node holds.
impl Share for Node {
    fn share(&self) -> Result<Node, NoMemory> {
        Ok(match self {
            Node::Empty => Node::Empty,
            Node::Cons { depth, heads, rest } => Node::Cons {
                depth: *depth,
                heads: heads.share()?,
                rest: rest.share()?,
            },
            Node::Chunk { depth, items, rest } => Node::Chunk {
                depth: *depth,
                items: items.share()?,
                rest: rest.share()?,
            },
            Node::Range { from, at, end } => Node::Range {
                from: *from,
                at: *at,
                end: *end,
            },
            Node::VecSeq { depth, items, at } => Node::VecSeq {
                depth: *depth,
                items: items.share()?,
                at: *at,
            },
        })
    }
}

/// One atomic increment at most, whatever is bound.
impl Share for FnValue {
    fn share(&self) -> Result<FnValue, NoMemory> {
        let bound = self.bound.share()?;
        Ok(FnValue {
            target: self.target,
            depth: self.depth,
            bound,
        })
    }
}

const _: () = prove!(size_of::<Value>() == 40);

const _: () = prove!(size_of::<Held>() == 8);
