//! A document and a query, and whether the library finds in them what the relation says.

use crate::ask::{Chain, chains};
use crate::data::{Spot, spots};
use crate::dice::Dice;
use crate::relation::is_selected;
use crate::spell::{Language, Writer};
use kdl::{KdlDocument, KdlIdentifier, KdlNode, ParseFailure};
use kdl_query::{Query, QueryFailure, edit_at, node_at, query, query_all, query_paths};
use std::alloc::{AllocError, Global};

/// A document and a query, as trees and as texts.
#[derive(Drop)]
pub struct Pair {
    spots: Vec<Spot>,
    chains: Vec<Chain>,
    pub document_text: String,
    pub query_text: String,
}

/// How a pair came out.
#[derive(Clone, Copy)]
pub enum Outcome {
    /// The library finds what the relation says, that many nodes.
    Agrees(usize),
    /// It does not, and in what.
    Differs(&'static str),
}

impl Pair {
    /// The pair of that seed.
    pub fn new(alloc: Global, seed: u64) -> Result<Pair, AllocError> {
        let mut dice = Dice::new(seed);
        let spots = spots(alloc, &mut dice)?;
        let chains = chains(alloc, &mut dice, &spots)?;
        let mut document = Writer::new(alloc, &mut dice, Language::Document);
        document.document(&spots)?;
        let document_text = document.into_text();
        let mut query = Writer::new(alloc, &mut dice, Language::Query);
        query.query(&chains)?;
        let query_text = query.into_text();
        Ok(Pair {
            spots,
            chains,
            document_text,
            query_text,
        })
    }

    /// Whether the query has no comparison that is not allowed.
    fn is_allowed(&self) -> bool {
        self.chains.iter().all(|chain| chain.is_allowed())
    }

    /// Reads both texts, and compares what is found and edited.
    pub fn outcome(&self, alloc: Global) -> Result<Outcome, AllocError> {
        let mut document = match KdlDocument::parse(alloc, &self.document_text) {
            Ok(document) => document,
            Err(ParseFailure::Syntax(_)) => return Ok(Outcome::Differs("the document is refused")),
            Err(ParseFailure::Memory) => return Err(AllocError),
        };
        match (Query::parse(alloc, &self.query_text), self.is_allowed()) {
            (Ok(query), true) => match self.compare(alloc, &document, &query)? {
                Outcome::Agrees(count) => self.edit(alloc, &mut document, count),
                differs => Ok(differs),
            },
            (Ok(_), false) => Ok(Outcome::Differs("the query is read")),
            (Err(QueryFailure::Syntax(_)), true) => Ok(Outcome::Differs("the query is refused")),
            (Err(QueryFailure::Syntax(_)), false) => Ok(Outcome::Agrees(0)),
            (Err(QueryFailure::Memory), _) => Err(AllocError),
        }
    }

    /// Compares what the query prints, and then all that is found in the document.
    fn compare(
        &self,
        alloc: Global,
        document: &KdlDocument,
        asked: &Query,
    ) -> Result<Outcome, AllocError> {
        if !is_reread(alloc, asked)? {
            return Ok(Outcome::Differs("the query prints another one"));
        }
        let paths = query_paths(alloc, document, asked)?;
        let nodes = query_all(alloc, document, asked)?;
        let first = query(alloc, document, asked)?;
        let mut count: usize = 0;
        for spot in &self.spots {
            if !is_at(document, spot) {
                return Ok(Outcome::Differs("`node_at` finds another node"));
            }
            if !is_selected(&self.spots, &self.chains, spot) {
                continue;
            }
            if !is_path(paths.get(count), spot) {
                return Ok(Outcome::Differs("`query_paths` finds another path"));
            }
            if !is_node(document, nodes.get(count).copied(), spot) {
                return Ok(Outcome::Differs("`query_all` finds another node"));
            }
            if count == 0 && !is_node(document, first, spot) {
                return Ok(Outcome::Differs("`query` finds another node"));
            }
            count = count.saturating_add(1);
        }
        if paths.len() != count || nodes.len() != count || first.is_some() != (count > 0) {
            return Ok(Outcome::Differs("more nodes are found"));
        }
        Ok(Outcome::Agrees(count))
    }

    /// Renames the node at each path in turn, and compares what is then there.
    fn edit(
        &self,
        alloc: Global,
        document: &mut KdlDocument,
        count: usize,
    ) -> Result<Outcome, AllocError> {
        for spot in &self.spots {
            let name = KdlIdentifier::from_text(alloc, "renamed")?;
            let edited = edit_at(alloc, document, &spot.path, |node| node.set_name(name))?;
            let is_renamed = match node_at(document, &spot.path) {
                Some(node) => node.name().value() == "renamed",
                None => false,
            };
            if edited.is_none() || !is_renamed {
                return Ok(Outcome::Differs("`edit_at` edits another node"));
            }
        }
        Ok(Outcome::Agrees(count))
    }
}

/// Whether what the query prints is read as an equal query, and its copy is equal.
fn is_reread(alloc: Global, query: &Query) -> Result<bool, AllocError> {
    match Query::parse(alloc, &query.to_string(alloc)?) {
        Ok(other) => Ok(other == *query && query.clone()? == other),
        Err(QueryFailure::Syntax(_)) => Ok(false),
        Err(QueryFailure::Memory) => Err(AllocError),
    }
}

/// Whether the node of the document at that path has this name and so many entries.
fn is_at(document: &KdlDocument, spot: &Spot) -> bool {
    match node_at(document, &spot.path) {
        Some(node) => {
            node.name().value() == spot.name.0 && node.entries().len() == spot.entries.len()
        }
        None => false,
    }
}

/// Whether this is the path of the node.
fn is_path(path: Option<&Vec<usize>>, spot: &Spot) -> bool {
    match path {
        Some(path) => path.as_slice() == spot.path.as_slice(),
        None => false,
    }
}

/// Whether this is the node of the document at the path.
fn is_node(document: &KdlDocument, node: Option<&KdlNode>, spot: &Spot) -> bool {
    match (node, node_at(document, &spot.path)) {
        (Some(node), Some(other)) => node.span() == other.span(),
        (_, _) => false,
    }
}
