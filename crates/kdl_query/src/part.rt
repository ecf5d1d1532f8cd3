//! The parts of a query's selectors, and where they are reached.

ghost use Rattle.kdl.specs.Tree.{node_says};
ghost use Rattle.kdl_query.specs.Internal.Parts.{after, all_parts, begins, decides, ends, ends_at, entered_part, fresh, has_block, is_reached, leads_on, marked, next_of, part_says, parts_to, query_parts, step_parts, visited, with_marks};
ghost use Rattle.kdl_query.specs.Tree.{first_says, node_test_says, query_says, selector_says};
ghost use Rattle.std.specs.Prelude.{◌≡◌, ◌++◌, ◌||◌, IfOk, OnOk, Some, map, option_map, false, true};

use crate::test::meets;
use crate::tree::{Combinator, First, NodeTest, Query, Selector, Step};
use kdl::KdlNode;
use std::alloc::{AllocError, Global};

/// What a part of a selector follows.
#[derive(Clone, Copy)]
pub(crate) enum Link {
    /// It is the document itself.
    Document,
    /// Nothing: the selector begins with it.
    Start,
    /// The part before it.
    After,
}

/// Whether a node may reach the part after this one, seen from a place among the nodes of a block.
#[derive(Clone, Copy)]
pub(crate) struct Marks {
    /// The next node may.
    pub(crate) here: bool,
    /// The first node in the block of the node that was visited last may.
    pub(crate) inside: bool,
}

/// A part of a selector, with its marks.
#[derive(Clone, Copy)]
pub(crate) struct Part<'q> {
    pub(crate) link: Link,
    /// What a node has to meet, or any node.
    pub(crate) test: Option<&'q NodeTest>,
    /// What leads to the part after it, or `None` if the selector ends with it.
    pub(crate) next: Option<Combinator>,
    pub(crate) marks: Marks,
}

/// Whether the node has a block.
pub(crate) fn has_block(node: &KdlNode) -> bool
    ensures { result ≡ has_block (node_says node.now) }
{
    node.children().is_some()
}

impl Link {
    /// Whether a first node may reach the part after this one.
    fn begins(self, next: Option<Combinator>) -> bool
        ensures { result ≡ begins self next }
    {
        match (self, next) {
            (Link::Document, Some(Combinator::Child | Combinator::Descendant)) => true,
            _ => false,
        }
    }

    /// Whether a node may reach the part, given whether it may by the part before it.
    fn leads_on(self, before: bool) -> bool
        ensures { result ≡ leads_on self before }
    {
        match self {
            Link::Document => false,
            Link::Start => true,
            Link::After => before,
        }
    }
}

impl<'q> Part<'q> {
    fn new(link: Link, test: Option<&'q NodeTest>, next: Option<Combinator>) -> Part<'q>
        ensures { part_says result ≡ fresh link (option_map (λ t. node_test_says t.now) test.entry) next }
    {
        Part {
            link,
            test,
            next,
            marks: Marks {
                here: link.begins(next),
                inside: false,
            },
        }
    }

    /// Whether the node reaches the part, given whether it may by the part before it.
    fn is_reached(&self, before: bool, node: &KdlNode) -> bool
        ensures { result ≡ is_reached (part_says self.now) before (node_says node.now) }
    {
        self.link.leads_on(before)
            && match self.test {
                Some(test) => meets(node, test),
                None => true,
            }
    }

    /// Whether the marks after the node, or whether the node is selected, depend on whether it reaches the part.
    fn decides(&self, is_selected: bool, node: &KdlNode) -> bool
        ensures { result ≡ decides (part_says self.now) is_selected (node_says node.now) }
    {
        match self.next {
            Some(Combinator::Child) => has_block(node),
            Some(Combinator::Descendant) => !self.marks.here && has_block(node),
            Some(Combinator::NextSibling) => true,
            Some(Combinator::LaterSibling) => !self.marks.here,
            None => !is_selected,
        }
    }

    /// Goes on to the node, given whether it may reach the part by the part before it and whether it is selected by another
    /// part. Returns whether it is selected. The node is tested only if the result or the marks depend on it.
    fn visit(&mut self, before: bool, is_selected: bool, node: &KdlNode) -> bool
        ensures part { part_says self.new ≡ with_marks (part_says self.old)
            (after (part_says self.old) before (node_says node.now)) }
        ensures ends { result ≡
            (is_selected || ends_at (part_says self.old) before (node_says node.now)) }
    {
        let is_reached = self.decides(is_selected, node) && self.is_reached(before, node);
        match self.next {
            Some(combinator) => {
                self.marks = self.marks.after(combinator, is_reached);
                is_selected
            }
            None => is_selected || is_reached,
        }
    }
}

impl Marks {
    /// The marks after a node that has a block, given whether it reaches the part.
    fn after(self, next: Combinator, is_reached: bool) -> Marks
        ensures { result ≡ marked (Some next) is_reached true self }
    {
        let Marks { here, .. } = self;
        match next {
            Combinator::Child => Marks {
                here,
                inside: is_reached,
            },
            Combinator::Descendant => Marks {
                here,
                inside: here || is_reached,
            },
            Combinator::NextSibling => Marks {
                here: is_reached,
                inside: false,
            },
            Combinator::LaterSibling => Marks {
                here: here || is_reached,
                inside: false,
            },
        }
    }
}

/// Visits the next node, and returns whether a selector ends there.
pub(crate) fn visit(parts: &mut [Part<'_>], node: &KdlNode) -> bool
    ensures parts { map part_says parts.new ≡
        visited (node_says node.now) false (map part_says parts.old) }
    ensures ends { result ≡ ends (node_says node.now) false (map part_says parts.old) }
{
    let mut is_selected = false;
    let mut before = false;
    for part in parts.iter_mut() {
        let here = part.marks.here;
        is_selected = part.visit(before, is_selected, node);
        before = here;
    }
    is_selected
}

/// Replaces parts by others, as they are before the first node in the block of the node that was visited last.
pub(crate) fn enter<'q>(entered: &mut Vec<Part<'q>>, parts: &[Part<'q>]) -> Result<(), AllocError>
    ensures { OnOk result (entered.new.items ≡ map entered_part parts.now) }
{
    entered.clear();
    entered.extend(
        parts.iter().map(|part| Part {
            marks: Marks {
                here: part.marks.inside,
                inside: false,
            },
            ..*part
        }),
    )
}

/// What leads to the first of the steps.
fn next_of(steps: &[Step]) -> Option<Combinator>
    ensures { result ≡ next_of steps.now }
{
    match steps.first() {
        Some(step) => Some(step.combinator),
        None => None,
    }
}

/// Appends the first part of a selector, before these steps.
fn push_first<'q>(
    parts: &mut Vec<Part<'q>>,
    first: &'q First,
    steps: &[Step],
) -> Result<(), AllocError>
    ensures { OnOk result (map part_says parts.new.items
        ≡ map part_says parts.old.items ++ parts_to (next_of steps.now) (first_says first.now)) }
{
    let next = next_of(steps);
    let part = match first {
        First::Top => Part::new(Link::Document, None, next),
        First::Node(test) => Part::new(Link::Start, Some(test), next),
    };
    parts.push(part)?;
    Ok(())
}

/// Appends the parts of a selector without steps. From the document it leads to each top-level node.
fn push_alone<'q>(parts: &mut Vec<Part<'q>>, first: &'q First) -> Result<(), AllocError>
    ensures { OnOk result (map part_says parts.new.items
        ≡ map part_says parts.old.items ++ all_parts (first_says first.now)) }
{
    match first {
        First::Top => {
            parts.push(Part::new(Link::Document, None, Some(Combinator::Child)))?;
            parts.push(Part::new(Link::After, None, None))?;
            Ok(())
        }
        First::Node(_) => push_first(parts, first, &[]),
    }
}

/// Appends the parts of steps.
fn push_steps<'q>(parts: &mut Vec<Part<'q>>, steps: &'q [Step]) -> Result<(), AllocError>
    ensures { OnOk result (map part_says parts.new.items
        ≡ map part_says parts.old.items ++ step_parts steps.now) }
{
    let mut rest = steps;
    while let Some((step, after)) = rest.split_first() {
        parts.push(Part::new(Link::After, Some(&step.node), next_of(after)))?;
        rest = after;
    }
    Ok(())
}

/// Appends the parts of a selector.
fn push_selector<'q>(parts: &mut Vec<Part<'q>>, selector: &'q Selector) -> Result<(), AllocError>
    ensures { OnOk result (map part_says parts.new.items
        ≡ map part_says parts.old.items ++ all_parts (selector_says selector.now)) }
{
    let steps = selector.steps.as_slice();
    if steps.is_empty() {
        return push_alone(parts, &selector.first);
    }
    push_first(parts, &selector.first, steps)?;
    push_steps(parts, steps)?;
    Ok(())
}

/// The parts of the selectors of a query, before the first top-level node.
pub(crate) fn parts_of<'q>(alloc: Global, query: &'q Query) -> Result<Vec<Part<'q>>, AllocError>
    ensures { IfOk result (λ v. map part_says v.items ≡ query_parts (query_says query.now)) }
{
    let mut parts = Vec::new(alloc);
    let mut rest = query.selectors.as_slice();
    while let Some((selector, after)) = rest.split_first() {
        push_selector(&mut parts, selector)?;
        rest = after;
    }
    Ok(parts)
}
