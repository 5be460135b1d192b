//! The texts of steps and of expectations.

ghost use Rattle.std.specs.Prelude.{IfSome, length};
ghost use Rattle.babel_text.specs.Readings.{Reads};
ghost use Rattle.babel_text.specs.Prefixes.{IsPrefixText};
ghost use Rattle.babel_topology.specs.Words.{IsPair};
ghost use Rattle.babel_topology.specs.Names.{IsNodeText, IsLinkText};
ghost use Rattle.babel_topology.specs.Actions.{IsCostText, IsPercentText, HasFields, IsActionText, IsStepText, IsHopText, IsRouteText, IsExpectationText};
ghost use Rattle.babel_topology.specs.Actions.{IsAbout, IsExpectedAmong};

use crate::names::{find_link, find_node};
use crate::times::parse_timed;
use crate::topology::{Action, Expectation, Link, NextHop, Node, Step};
use crate::verbs::{Verb, parse_verb};
use crate::words::split_word;
use babel_text::{parse_prefix, parse_u16};
use babel_value::Prefix;

/// A nominal cost, 1 to 65534.
fn parse_cost(text: &str) -> Option<u16>
    ensures { Reads IsCostText text.now result }
{
    let cost = parse_u16(text)?;
    if 1 <= cost && cost <= 65534 {
        Some(cost)
    } else {
        None
    }
}

/// A part of 100, as `20 %`.
fn parse_percent(text: &str) -> Option<u16>
    ensures { Reads IsPercentText text.now result }
{
    let (number, sign) = split_word(text)?;
    if sign != "%" {
        return None;
    }
    let percent = parse_u16(number)?;
    if percent <= 100 { Some(percent) } else { None }
}

/// `A-B C`: a link and its cost.
fn parse_link_cost(nodes: &[Node], links: &[Link], text: &str) -> Option<(usize, u16)>
    ensures { Reads (IsPair (IsLinkText nodes.now links.now) IsCostText) text.now result }
{
    let (link, cost) = split_word(text)?;
    find_link(nodes, links, link).zip(parse_cost(cost))
}

/// `A-B N %`: a link and what it loses.
fn parse_link_loss(nodes: &[Node], links: &[Link], text: &str) -> Option<(usize, u16)>
    ensures { Reads (IsPair (IsLinkText nodes.now links.now) IsPercentText) text.now result }
{
    let (link, loss) = split_word(text)?;
    find_link(nodes, links, link).zip(parse_percent(loss))
}

/// `N P`: a node and a prefix.
fn parse_node_prefix(nodes: &[Node], text: &str) -> Option<(usize, Prefix)>
    ensures { Reads (IsPair (IsNodeText nodes.now) IsPrefixText) text.now result }
{
    let (node, prefix) = split_word(text)?;
    find_node(nodes, node).zip(parse_prefix(prefix))
}

/// What follows a verb.
fn parse_fields(nodes: &[Node], links: &[Link], verb: Verb, text: &str) -> Option<Action>
    ensures { Reads (HasFields nodes.now links.now verb) text.now result }
{
    match verb {
        Verb::Cut => {
            let link = find_link(nodes, links, text)?;
            Some(Action::Cut { link })
        }
        Verb::Join => {
            let link = find_link(nodes, links, text)?;
            Some(Action::Join { link })
        }
        Verb::Cost => {
            let (link, cost) = parse_link_cost(nodes, links, text)?;
            Some(Action::SetCost { link, cost })
        }
        Verb::Lossy => {
            let (link, loss) = parse_link_loss(nodes, links, text)?;
            Some(Action::SetLoss { link, loss })
        }
        Verb::Announce => {
            let (node, prefix) = parse_node_prefix(nodes, text)?;
            Some(Action::Announce { node, prefix })
        }
        Verb::Withdraw => {
            let (node, prefix) = parse_node_prefix(nodes, text)?;
            Some(Action::Withdraw { node, prefix })
        }
        Verb::Restart => {
            let node = find_node(nodes, text)?;
            Some(Action::Restart { node })
        }
        Verb::Crash => {
            let node = find_node(nodes, text)?;
            Some(Action::Crash { node })
        }
    }
}

/// A verb, and what follows it.
fn parse_action(nodes: &[Node], links: &[Link], text: &str) -> Option<Action>
    ensures { Reads (IsActionText nodes.now links.now) text.now result }
{
    let (verb, fields) = split_word(text)?;
    let verb = parse_verb(verb)?;
    parse_fields(nodes, links, verb, fields)
}

/// A step, as `at 20 s cut a-b`.
pub fn parse_step(nodes: &[Node], links: &[Link], text: &str) -> Option<Step>
    ensures text { Reads (IsStepText nodes.now links.now) text.now result }
    ensures about { IfSome result (λ step. IsAbout (length nodes.now) (length links.now) step.action) }
{
    let (word, timed) = split_word(text)?;
    if word != "at" {
        return None;
    }
    let (at, action) = parse_timed(timed)?;
    let action = parse_action(nodes, links, action)?;
    Some(Step { at, action })
}

/// The next hop, as `via a`, or `none`.
fn parse_hop(nodes: &[Node], text: &str) -> Option<NextHop>
    ensures { Reads (IsHopText nodes.now) text.now result }
{
    if text == "none" {
        return Some(NextHop::Unreachable);
    }
    let (word, name) = split_word(text)?;
    if word != "via" {
        return None;
    }
    let node = find_node(nodes, name)?;
    Some(NextHop::Via(node))
}

/// `P via N` or `P none`: a prefix and the next hop to it.
fn parse_route(nodes: &[Node], text: &str) -> Option<(Prefix, NextHop)>
    ensures { Reads (IsRouteText nodes.now) text.now result }
{
    let (prefix, hop) = split_word(text)?;
    parse_prefix(prefix).zip(parse_hop(nodes, hop))
}

/// `N P via N` or `N P none`: a node, and a prefix and the next hop to it.
fn parse_node_route(nodes: &[Node], text: &str) -> Option<(usize, (Prefix, NextHop))>
    ensures { Reads (IsPair (IsNodeText nodes.now) (IsRouteText nodes.now)) text.now result }
{
    let (node, route) = split_word(text)?;
    find_node(nodes, node).zip(parse_route(nodes, route))
}

/// An expectation, as `30 s b 10.0.0.0/8 via a`.
pub fn parse_expectation(nodes: &[Node], text: &str) -> Option<Expectation>
    ensures text { Reads (IsExpectationText nodes.now) text.now result }
    ensures among { IfSome result (IsExpectedAmong (length nodes.now)) }
{
    let (at, route) = parse_timed(text)?;
    let (node, (prefix, hop)) = parse_node_route(nodes, route)?;
    Some(Expectation {
        at,
        node,
        prefix,
        hop,
    })
}
