//! Queries in memory.

use kdl::KdlValue;

/// A query: selectors. It selects a node if one of them does.
#[derive(PartialEq, Eq, Debug, Drop)]
pub struct Query {
    pub(crate) selectors: Vec<Selector>,
}

/// A selector: where it begins, and the steps from there to the nodes that it selects.
#[derive(PartialEq, Eq, Debug, Drop)]
pub struct Selector {
    pub(crate) first: First,
    pub(crate) steps: Vec<Step>,
}

/// Where a selector begins.
#[derive(PartialEq, Eq, Debug, Drop)]
pub enum First {
    /// `top()`: at the document. With no steps, it selects the top-level nodes.
    Top,
    /// At each node that meets the test.
    Node(NodeTest),
}

/// A step of a selector: to the nodes that meet the test, of those that the combinator leads to.
#[derive(PartialEq, Eq, Debug, Drop)]
pub struct Step {
    pub(crate) combinator: Combinator,
    pub(crate) node: NodeTest,
}

/// Where a node is, seen from the node before it in a selector.
#[derive(Clone, Copy, PartialEq, Eq, Debug)]
pub enum Combinator {
    /// `>`: in its block.
    Child,
    /// `>>`: in its block, at any depth.
    Descendant,
    /// `+`: directly after it.
    NextSibling,
    /// `++`: after it, in the same block.
    LaterSibling,
}

/// What a node has to meet: a type and a name where they are given, and every test.
#[derive(PartialEq, Eq, Debug, Drop)]
pub struct NodeTest {
    pub(crate) node_type: Option<TypeTest>,
    pub(crate) name: Option<String>,
    pub(crate) tests: Vec<Test>,
}

/// A test of a type.
#[derive(PartialEq, Eq, Debug, Drop)]
pub enum TypeTest {
    /// `()`: there is a type.
    Any,
    /// `(t)`: the type is this one.
    Named(String),
}

/// A test of a node, in brackets.
#[derive(PartialEq, Eq, Debug, Drop)]
pub enum Test {
    /// `[]`: always met.
    Always,
    /// `[accessor]`: the accessor finds something.
    Has(Accessor),
    /// `[accessor = literal]`: something that the accessor finds compares with the literal.
    Compares(Accessor, Comparison, Literal),
}

/// What a test looks at in a node.
#[derive(PartialEq, Eq, Debug, Drop)]
pub enum Accessor {
    /// `val(i)`: the argument at that place among the arguments.
    Argument(usize),
    /// `prop(k)`, or `k`: the last property of that name.
    Property(String),
    /// `name()`: the name, as a string.
    Name,
    /// `tag()`: the type, as a string.
    Type,
    /// `values()`: each argument.
    Arguments,
    /// `props()`: each property that is the last one of its name.
    Properties,
}

/// How a value compares with a literal.
#[derive(Clone, Copy, PartialEq, Eq, Debug)]
pub enum Comparison {
    /// `=`
    Equal,
    /// `!=`
    NotEqual,
    /// `>`
    Greater,
    /// `>=`
    GreaterOrEqual,
    /// `<`
    Less,
    /// `<=`
    LessOrEqual,
    /// `^=`
    StartsWith,
    /// `$=`
    EndsWith,
    /// `*=`
    Contains,
}

/// What a value is compared with.
#[derive(PartialEq, Eq, Debug, Drop)]
pub enum Literal {
    /// A type: the value's own type is compared.
    Type(TypeTest),
    /// A value.
    Value(KdlValue),
}
