ghost use Rattle.std.specs.Option.{option_map};
ghost use Rattle.std.specs.Prelude.{◌≡◌, ◌<◌, Some, length, slice_get};
ghost use Rattle.ira_pred.specs.Case.{IsCaseOfSomeRing};
ghost use Rattle.ira_pred.specs.Clause.{formula};
ghost use Rattle.ira_pred.specs.PlacedClause.{conjuncts};

use crate::clause::Clause;
use std::alloc::Allocator;
use std::marker::Model;

/// A clause, and the place of the node of whose state it is asked.
#[derive(Drop)]
pub(crate) struct PlacedClause<A: Allocator> {
    pub place: u8,
    pub clause: Clause<A>,
}

/// A conjunction of clauses, each asked of another node's state: at least one, at rising places.
#[derive(Drop)]
pub struct Case<A: Allocator> {
    clauses: Vec<PlacedClause<A>, A>,
}

impl<A: Allocator> Model for Case<A> {
    ghost use Rattle.std.specs.Coded.{codes};
    ghost use Rattle.std.specs.Prelude.{List};
    ghost use Rattle.ira_pred.specs.FormulaCode.{formula_code};
    ghost use Rattle.ira_pred.specs.Case.{Conjunct, IsCaseOfSomeRing};
    ghost use Rattle.ira_pred.specs.PlacedClause.{conjuncts};

    ghost Value = { List Conjunct };

    ghost coded = { Prim.hlevel (codes, formula_code) };

    ghost view = { λ c. conjuncts c.clauses.items };

    ghost invariant = { λ c. IsCaseOfSomeRing (conjuncts c.clauses.items) };
}

impl<A: Allocator> Case<A> {
    /// The case of these clauses, whose places are known to rise.
    pub(crate) fn of_parts(clauses: Vec<PlacedClause<A>, A>) -> Case<A>
        requires { IsCaseOfSomeRing (conjuncts clauses.items) }
        ensures { result ≡ conjuncts clauses.items }
    {
        Case { clauses }
    }

    /// The clauses at their places.
    pub(crate) fn clauses(&self) -> &[PlacedClause<A>]
        ensures { conjuncts result.now ≡ self.now }
    {
        &self.clauses
    }

    /// How many clauses there are.
    pub fn len(&self) -> usize
        ensures value { result ≡ length self.now }
        ensures valid { IsCaseOfSomeRing self.now }
    {
        self.clauses.len()
    }

    /// The place of clause number `n`, counted from 0.
    pub fn place(&self, n: usize) -> u8
        requires { n < length self.now }
        ensures { option_map (λ c. c.place) (slice_get self.now n) ≡ Some result }
    {
        self.clauses[n].place
    }

    /// Clause number `n`, counted from 0.
    pub fn clause(&self, n: usize) -> &Clause<A>
        requires { n < length self.now }
        ensures { option_map (λ c. c.formula) (slice_get self.now n) ≡ Some (formula result.now) }
    {
        &self.clauses[n].clause
    }
}
