//! Copies of queries.
#![tactic(auto, using(crate::proofs::Rules::clone))]

ghost use Rattle.kdl_query.specs.Tree.{accessor_says, first_says, literal_says, node_test_says, query_says, selector_says, test_says, type_test_says};
ghost use Rattle.std.specs.Prelude.{◌≡◌};

use crate::tree::{Accessor, First, Literal, NodeTest, Query, Selector, Step, Test, TypeTest};
use std::alloc::AllocError;

/// Returns an equal copy, or an error if an allocation fails.
impl Clone for TypeTest {
    ghost is_clone = { λ v w. type_test_says w ≡ type_test_says v };

    fn clone(&self) -> Result<TypeTest, AllocError> {
        match self {
            TypeTest::Any => Ok(TypeTest::Any),
            TypeTest::Named(name) => Ok(TypeTest::Named(name.clone()?)),
        }
    }
}

/// Returns an equal copy, or an error if an allocation fails.
impl Clone for Accessor {
    ghost is_clone = { λ v w. accessor_says w ≡ accessor_says v };

    fn clone(&self) -> Result<Accessor, AllocError> {
        match self {
            Accessor::Argument(index) => Ok(Accessor::Argument(*index)),
            Accessor::Property(name) => Ok(Accessor::Property(name.clone()?)),
            Accessor::Name => Ok(Accessor::Name),
            Accessor::Type => Ok(Accessor::Type),
            Accessor::Arguments => Ok(Accessor::Arguments),
            Accessor::Properties => Ok(Accessor::Properties),
        }
    }
}

/// Returns an equal copy, or an error if an allocation fails.
impl Clone for Literal {
    ghost is_clone = { λ v w. literal_says w ≡ literal_says v };

    fn clone(&self) -> Result<Literal, AllocError> {
        match self {
            Literal::Type(value_type) => Ok(Literal::Type(value_type.clone()?)),
            Literal::Value(value) => Ok(Literal::Value(value.clone()?)),
        }
    }
}

/// Returns an equal copy, or an error if an allocation fails.
impl Clone for Test {
    ghost is_clone = { λ v w. test_says w ≡ test_says v };

    fn clone(&self) -> Result<Test, AllocError> {
        match self {
            Test::Always => Ok(Test::Always),
            Test::Has(accessor) => Ok(Test::Has(accessor.clone()?)),
            Test::Compares(accessor, comparison, literal) => {
                let accessor = accessor.clone()?;
                let literal = literal.clone()?;
                Ok(Test::Compares(accessor, *comparison, literal))
            }
        }
    }
}

/// Returns an equal copy, or an error if an allocation fails.
impl Clone for NodeTest {
    ghost is_clone = { λ v w. node_test_says w ≡ node_test_says v };

    fn clone(&self) -> Result<NodeTest, AllocError> {
        let node_type = self.node_type.clone()?;
        let name = self.name.clone()?;
        let tests = self.tests.clone()?;
        Ok(NodeTest {
            node_type,
            name,
            tests,
        })
    }
}

/// Returns an equal copy, or an error if an allocation fails.
impl Clone for First {
    ghost is_clone = { λ v w. first_says w ≡ first_says v };

    fn clone(&self) -> Result<First, AllocError> {
        match self {
            First::Top => Ok(First::Top),
            First::Node(node) => Ok(First::Node(node.clone()?)),
        }
    }
}

/// Returns an equal copy, or an error if an allocation fails.
impl Clone for Step {
    ghost is_clone = { λ v w. (w.combinator ≡ v.combinator) × (node_test_says w.node ≡ node_test_says v.node) };

    fn clone(&self) -> Result<Step, AllocError> {
        let node = self.node.clone()?;
        Ok(Step {
            combinator: self.combinator,
            node,
        })
    }
}

/// Returns an equal copy, or an error if an allocation fails.
impl Clone for Selector {
    ghost is_clone = { λ v w. selector_says w ≡ selector_says v };

    fn clone(&self) -> Result<Selector, AllocError> {
        let first = self.first.clone()?;
        let steps = self.steps.clone()?;
        Ok(Selector { first, steps })
    }
}

/// Returns an equal copy, or an error if an allocation fails.
///
/// ```
/// let query = Query::parse(alloc, "a > b")?;
/// let same = query.clone()? == query; // true
/// ```
impl Clone for Query {
    ghost is_clone = { λ v w. query_says w ≡ query_says v };

    fn clone(&self) -> Result<Query, AllocError> {
        let selectors = self.selectors.clone()?;
        Ok(Query { selectors })
    }
}
