//! An explained refutation that is audited line by line.
ghost use Rattle.std.specs.Prelude.{◌≡◌, ◌≤◌, [], ◌∷◌, length, vec_capacity, IfOk, None, reverse};
ghost use Rattle.packing_terms.specs.Packing.{box_count};
ghost use Rattle.packing_terms.specs.Exclusions.{relation_count};
ghost use Rattle.packing_terms.specs.Limits.{IsDimCount, IsBoxCount};
ghost use Rattle.verdict_terms.specs.Auditing.{starting, answered, is_whole, most_open_nodes};
ghost use Rattle.line_proofs.specs.Plain.{plain_step};
ghost use Rattle.line_proofs.specs.Auditors.{fed, IsAdvanced};
ghost use Rattle.line_proofs.specs.Waiting.{AreBelow};

use crate::Step;
use crate::chain::Chain;
use crate::lines::{Taken, take_line};
use crate::waiting::{Waiting, enter};
use box_instances::{Instance, NoMemory};
use edge_state::EdgeState;
use std::alloc::Global;
use std::marker::Model;
use verdict_terms::{AuditCode, AuditVerdict};

/// Audits an explained refutation of an instance, line by line. It takes all its memory when it is
/// made, and uses no closure.
///
/// It is seen as the instance, the list of open nodes, the next one first, each with its exclusions
/// and a chain begun there by its lines so far, and the refusal if there was one. It holds the
/// exclusions of the next node as a state, and for each other node only how long that list was at
/// its split, and what the split excludes.
#[derive(Drop)]
pub struct Auditor<'a> {
    instance: &'a Instance,
    state: EdgeState,
    going: bool,
    chain: Chain,
    waiting: Vec<Waiting>,
    refused: Option<AuditCode>,
}

impl<'a> Model for Auditor<'a> {
    ghost use Rattle.std.specs.Prelude.{vec_capacity, reverse};
    ghost use Rattle.line_proofs.specs.Auditors.{PlainAuditor, nodes_seen, IsHeld};

    ghost Value = { PlainAuditor };

    ghost view = { λ r. record {
      instance = r.instance.now;
      audited = record {
        nodes = nodes_seen r.going r.state.trail r.chain (reverse r.waiting.items);
        refused = r.refused;
      };
    } };

    ghost invariant = { λ r. IsHeld r.instance.now r.going r.state r.chain (reverse r.waiting.items)
        (vec_capacity r.waiting) };
}

// Room for `boxes` boxes of a chain.
fn box_room(alloc: Global, boxes: u32) -> Result<Vec<u32>, NoMemory>
    ensures { IfOk result (λ list. boxes ≤ vec_capacity list) }
{
    let Ok(list) = Vec::with_capacity(alloc, boxes as usize) else {
        return Err(NoMemory);
    };
    Ok(list)
}

// Room for the nodes behind the next one.
fn node_room(alloc: Global, dims: u32, boxes: u32) -> Result<Vec<Waiting>, NoMemory>
    requires dims { IsDimCount dims }
    requires boxes { IsBoxCount boxes }
    ensures { IfOk result (λ list. (list.items ≡ [])
        × (relation_count dims boxes ≤ vec_capacity list)) }
{
    let most = 3 * dims * boxes * (boxes - 1) / 2;
    let Ok(list) = Vec::with_capacity(alloc, most as usize) else {
        return Err(NoMemory);
    };
    Ok(list)
}

// The next node, where one is left.
fn advance(state: &mut EdgeState, chain: &mut Chain, waiting: &mut Vec<Waiting>) -> bool
    requires { AreBelow state.old.dims state.old.boxes (length state.old.trail)
        (reverse waiting.old.items) }
    ensures advanced { IsAdvanced state.old state.new chain.old chain.new
        (reverse waiting.old.items) (reverse waiting.new.items) result }
    ensures capacity { vec_capacity waiting.new ≡ vec_capacity waiting.old }
{
    chain.begun = None;
    match waiting.pop() {
        Some(node) => {
            enter(state, node);
            true
        }
        None => false,
    }
}

impl<'a> Auditor<'a> {
    /// Begins an explained refutation of an instance. It takes all memory of a whole audit.
    pub fn new(alloc: Global, instance: &'a Instance) -> Result<Auditor<'a>, NoMemory>
        ensures { IfOk result (λ r. r ≡ record { instance = instance.now; audited = starting }) }
    {
        let dims = instance.dims();
        let count = instance.len();
        let state = EdgeState::new(alloc, dims, count)?;
        let before = box_room(alloc, count)?;
        let after = box_room(alloc, count)?;
        let waiting = node_room(alloc, dims, count)?;
        Ok(Auditor {
            instance,
            state,
            going: true,
            chain: Chain {
                begun: None,
                before,
                after,
            },
            waiting,
            refused: None,
        })
    }

    /// Takes the next line: `Done` where the tree is whole with it, `Refused` with the first test
    /// that it fails, and `More` otherwise.
    ///
    /// After a refusal each further call answers the same, and after `Done` each further call is
    /// refused with `After`. It takes no memory.
    pub fn feed(&mut self, step: &Step) -> AuditVerdict
        ensures step { self.new ≡ fed self.old (plain_step step.now) }
        ensures answer { result ≡ answered self.new.audited }
    {
        if let Some(code) = self.refused {
            return AuditVerdict::Refused { code };
        }
        if !self.going {
            self.refused = Some(AuditCode::After);
            return AuditVerdict::Refused {
                code: AuditCode::After,
            };
        }
        match take_line(self.instance, &mut self.state, &mut self.chain, step) {
            Taken::Refused { code } => {
                self.refused = Some(code);
                AuditVerdict::Refused { code }
            }
            Taken::Stays => AuditVerdict::More,
            Taken::Splits { second } => {
                self.waiting.push_reserved(second);
                AuditVerdict::More
            }
            Taken::Closes => {
                self.going = advance(&mut self.state, &mut self.chain, &mut self.waiting);
                if self.going {
                    AuditVerdict::More
                } else {
                    AuditVerdict::Done
                }
            }
        }
    }

    /// Whether a tree was accepted whole, and no line refused behind it. The number of open nodes
    /// is at most one more than the number of relations.
    pub fn whole(&self) -> bool
        ensures value { result ≡ is_whole self.now.audited }
        ensures limits { length self.now.audited.nodes ≤ most_open_nodes self.now.instance }
    {
        self.refused.is_none() && !self.going
    }
}
