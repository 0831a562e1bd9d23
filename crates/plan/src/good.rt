// A plan that is judged done, as a type all of whose values are: contracts see its bytes.
ghost use Rattle.std.specs.Prelude.{◌≡◌, ◌<◌, ◌≤◌, not, eqb, MatchResult};
ghost use Rattle.book.specs.Form.{DONE, judged};
ghost use Rattle.running.specs.Running.{move_of};
ghost use Rattle.plan.specs.Form.{plan_of, plan_count, plan_kinds, plan_judged, RowHas};
ghost use Rattle.plan.specs.Errors.{judged_by, move_by};

use crate::{
    PLAN_NODES_AT, PlanError, Step, check_cells, plan_count, plan_good, plan_kinds, plan_start,
    step_of,
};
use std::marker::Model;
use words::u16_at;

// The type of a tagged node.
const TAGGED: usize = 5;

// A plan that may run: its bytes, how many nodes it has, and how many kinds.
#[derive(Drop)]
pub struct Plan<'a> {
    bytes: &'a [u8],
    nodes: usize,
    kinds: usize,
}

impl<'a> Model for Plan<'a> {
    ghost use Rattle.std.specs.Prelude.{List, ℕ};
    ghost use Rattle.plan.specs.Form.{Runnable};

    ghost Value = { List ℕ };

    ghost view = { λ plan. plan.bytes.now };

    ghost invariant = { λ plan. Runnable plan.bytes.now plan.nodes plan.kinds };
}

impl<'a> Plan<'a> {
    // The plan that bytes are, or the first thing that stands against them.
    pub fn read(bytes: &'a [u8]) -> Result<Plan<'a>, PlanError>
        ensures { MatchResult result (λ plan. (plan ≡ bytes.now) × (plan_judged bytes.now ≡ judged DONE 0))
            (λ error. plan_judged bytes.now ≡ judged_by error) }
    {
        if bytes.len() < PLAN_NODES_AT {
            return Err(PlanError::Form);
        }
        let nodes = plan_count(bytes);
        let kinds = plan_kinds(bytes);
        if !plan_good(bytes, nodes, kinds) {
            return Err(PlanError::Form);
        }
        check_cells(bytes, nodes, kinds)?;
        Ok(Plan {
            bytes,
            nodes,
            kinds,
        })
    }

    // The plan that bytes known to be judged done are.
    #[tactic(auto, using(crate::proofs::Runnable::settings_inside))]
    pub fn of(bytes: &'a [u8]) -> Plan<'a>
        requires { (plan_judged bytes.now).number ≡ DONE }
        ensures { result ≡ bytes.now }
    {
        Plan {
            bytes,
            nodes: plan_count(bytes),
            kinds: plan_kinds(bytes),
        }
    }

    // The same plan as a value of its own: what a loop reads of it stays in registers, whatever the loop writes.
    #[inline(always)]
    pub fn own(&self) -> Plan<'a>
        ensures { result ≡ self.now }
    {
        Plan {
            bytes: self.bytes,
            nodes: self.nodes,
            kinds: self.kinds,
        }
    }

    // How many nodes it has.
    pub fn nodes(&self) -> usize
        ensures good { (plan_judged self.now).number ≡ DONE }
        ensures count { result ≡ plan_count self.now }
        ensures few { result ≤ 512 }
    {
        self.nodes
    }

    // How many kinds it has.
    pub fn kinds(&self) -> usize
        ensures good { (plan_judged self.now).number ≡ DONE }
        ensures kinds { result ≡ plan_kinds self.now }
        ensures few { result ≤ 64 }
    {
        self.kinds
    }

    // Its start.
    pub fn start(&self) -> usize
        ensures good { (plan_judged self.now).number ≡ DONE }
        ensures start { result ≡ (plan_of self.now).start }
        ensures below { result < plan_count self.now }
        ensures few { result < 512 }
    {
        plan_start(self.bytes)
    }

    // The cell of a node's row in a column; the last column has the row's nullable mark.
    #[inline(always)]
    pub fn cell_at(&self, node: usize, column: usize) -> u8
        requires { (node < plan_count self.now) × (column ≤ plan_kinds self.now) }
        ensures { result ≡ (plan_of self.now).cell node column }
    {
        self.bytes[PLAN_NODES_AT + 6 * self.nodes + node * (self.kinds + 1) + column]
    }

    // Whether a node's cell for a kind is not 0.
    pub fn takes(&self, node: usize, kind: usize) -> bool
        requires { (node < plan_count self.now) × (kind < plan_kinds self.now) }
        ensures { result ≡ not (eqb ((plan_of self.now).cell node kind) 0) }
    {
        self.cell_at(node, kind) != 0
    }

    // What a node's cell for a kind says of a walk.
    #[inline(always)]
    pub fn step_at(&self, node: usize, kind: usize) -> Step
        requires { (node < plan_count self.now) × (kind < plan_kinds self.now) }
        ensures { move_by result ≡ move_of ((plan_of self.now).cell node kind) }
    {
        step_of(self.cell_at(node, kind))
    }

    // Whether a node is nullable, by its row.
    pub fn is_nullable(&self, node: usize) -> bool
        requires { node < plan_count self.now }
        ensures null { result ≡ (plan_of self.now).null node }
        ensures few { node < 512 }
    {
        self.cell_at(node, self.kinds) == 1
    }

    // How many events are due for a node, by its number in the fourth section.
    pub fn due(&self, node: usize) -> usize
        requires { node < plan_count self.now }
        ensures due { result ≡ (plan_of self.now).due node }
        ensures few { result < 65536 }
    {
        u16_at(
            self.bytes,
            PLAN_NODES_AT + 6 * self.nodes + self.nodes * (self.kinds + 1) + 2 * node,
        )
    }

    // The left of a node whose row has a cell of 2 or more.
    pub fn left(&self, node: usize) -> usize
        requires { (node < plan_count self.now) × (RowHas self.now node 2) }
        ensures left { result ≡ (plan_of self.now).left node }
        ensures below { result < plan_count self.now }
        ensures few { result < 512 }
    {
        u16_at(self.bytes, PLAN_NODES_AT + 6 * node + 2)
    }

    // The right of a node whose row has a cell of 3 or more.
    pub fn right(&self, node: usize) -> usize
        requires { (node < plan_count self.now) × (RowHas self.now node 3) }
        ensures right { result ≡ (plan_of self.now).right node }
        ensures below { result < plan_count self.now }
        ensures few { result < 512 }
    {
        u16_at(self.bytes, PLAN_NODES_AT + 6 * node + 4)
    }

    // The label of a tagged node; 0 where a node is not tagged.
    pub fn tag(&self, node: usize) -> usize
        requires { node < plan_count self.now }
        ensures tag { result ≡ (plan_of self.now).tag node }
        ensures small { result < 65536 }
    {
        if u16_at(self.bytes, PLAN_NODES_AT + 6 * node) != TAGGED {
            return 0;
        }
        u16_at(self.bytes, PLAN_NODES_AT + 6 * node + 4)
    }
}
