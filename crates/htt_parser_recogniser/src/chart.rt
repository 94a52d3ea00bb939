//! The phrases that the tokens have. All edges are pending at first, the shorter before the longer. In
//! each round the pending edges that follow from the chart are added to it, and when a round adds none,
//! the chart has all. As each round but the last leaves fewer pending, this ends.

ghost use Rattle.std.specs.Prelude.{◌≡◌, ◌++◌, ◌↔◌, IfOk, IsTrue, OnOk, [], map};
ghost use Rattle.htt_parser_table.specs.Derives.{IsPhrase};
ghost use Rattle.htt_parser_table.specs.Table.{every_nonterminal};
ghost use Rattle.htt_parser_recogniser.specs.Rounds.{HasEach, IsChart, edge_of, round_of};

use crate::rows::{Edge, phrase_spans};
use htt_lexer_tokens::Token;
use htt_parser_table::{Nonterminal, nonterminals};
use std::alloc::{AllocError, Global};

/// Whether the tokens are a phrase of this nonterminal. Refuses for want of memory alone.
pub fn derives(
    alloc: Global,
    tokens: &[Token],
    nonterminal: Nonterminal,
) -> Result<bool, AllocError>
    ensures { IfOk result (λ found. IsTrue found ↔ IsPhrase nonterminal tokens.now) }
{
    let chart = chart_of(alloc, tokens)?;
    let whole = Edge {
        nonterminal,
        from: 0,
        to: tokens.len(),
    };
    Ok(phrase_spans(tokens, &chart, &whole))
}

/// The chart of the tokens.
fn chart_of(alloc: Global, tokens: &[Token]) -> Result<Vec<Edge>, AllocError>
    ensures { IfOk result (λ chart. IsChart tokens.now chart.items) }
{
    let mut chart = Vec::new(alloc);
    let mut pending = every_edge(alloc, tokens)?;
    loop {
        let left = round(alloc, tokens, &mut chart, &pending)?;
        if left.len() == pending.len() {
            return Ok(chart);
        }
        pending = left;
    }
}

/// Adds to the chart each pending edge that follows from it, and answers the others.
fn round(
    alloc: Global,
    tokens: &[Token],
    chart: &mut Vec<Edge>,
    pending: &[Edge],
) -> Result<Vec<Edge>, AllocError>
    ensures added { OnOk result (chart.new.items ≡ (round_of pending.now tokens.now chart.old.items []).chart) }
    ensures left { IfOk result (λ left. left.items ≡ (round_of pending.now tokens.now chart.old.items []).left) }
{
    let mut left = Vec::new(alloc);
    for edge in pending {
        if phrase_spans(tokens, chart, edge) {
            chart.push(*edge)?;
        } else {
            left.push(*edge)?;
        }
    }
    Ok(left)
}

/// The edges of all nonterminals over the tokens, the shorter first.
fn every_edge(alloc: Global, tokens: &[Token]) -> Result<Vec<Edge>, AllocError>
    ensures { IfOk result (λ edges. HasEach tokens.now edges.items) }
{
    let mut edges = Vec::new(alloc);
    for width in 0..tokens.len() + 1 {
        for from in 0..tokens.len() - width + 1 {
            add_edges(&mut edges, from, from + width)?;
        }
    }
    Ok(edges)
}

/// Adds the edges of all nonterminals from one place to another.
fn add_edges(edges: &mut Vec<Edge>, from: usize, to: usize) -> Result<(), AllocError>
    ensures { OnOk result (edges.new.items ≡ edges.old.items ++ map (edge_of from to) every_nonterminal) }
{
    for nonterminal in nonterminals() {
        edges.push(Edge {
            nonterminal: *nonterminal,
            from,
            to,
        })?;
    }
    Ok(())
}
