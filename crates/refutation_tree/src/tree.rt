//! Trees whose leaves name what is broken and whose nodes try each user of a step.
ghost use Rattle.std.specs.Prelude.{◌≡◌, ◌≤◌, ◌+◌, IfOk, OnOk, OnErr, MatchOption};
ghost use Rattle.refutation_tree.specs.Tree.{no_kids, capped, joined, kid_count, kids_from};
ghost use Rattle.refutation_tree.specs.Tree.{nodes_of, nodes_of_kids};
ghost use Rattle.refutation_tree.specs.Laws.Views.{branch_onto, kids_of_items, shape_of};

use std::alloc::{AllocError, Global};
use std::marker::Model;
use wf_names::{StepId, UserId};

/// A tree that shows why an assignment of users to steps cannot be completed.
#[cycle(tree)]
#[derive(Drop)]
pub enum Tree {
    /// The step is assigned and not finished, and its user is not authorised for it.
    Holder(StepId),
    /// The rule with this number is falsified.
    Rule(u8),
    /// The step is free, and each of its authorised users has a branch.
    Step(StepId, Branches),
}

/// What becomes of a node's step where it is given to a user.
#[cycle(tree)]
#[derive(Drop)]
pub struct Branch {
    pub user: UserId,
    pub kid: Kid,
}

/// Why a node's step cannot be given to a branch's user.
#[cycle(tree)]
#[derive(Drop)]
pub enum Kid {
    /// A tree over the assignment with the step given to the user.
    Tree(Tree),
    /// The user can be exchanged with the one named, whose branch stands earlier and has a tree.
    Twin(UserId),
}

/// The branches of a node, in the order in which they were added. Contracts see pure data.
#[cycle(tree)]
#[derive(Drop)]
pub struct Branches {
    items: Vec<Branch>,
}

impl Model for Branches {
    ghost use Rattle.refutation_tree.specs.Tree.{Kids, size_of_kids};
    ghost use Rattle.refutation_tree.specs.Codes.{kids_code};

    ghost Value = { Kids };

    ghost coded = { kids_code };

    ghost use Rattle.refutation_tree.specs.Laws.Views.{kids_of_items};

    ghost view = { λ b. kids_of_items b.items.items };

    ghost size = { size_of_kids };

    ghost use Rattle.refutation_tree.specs.Falls.{falls};

    ghost size_decreases = { λ b h. falls b.items.items };
}

impl Tree {
    /// A tree with the same leaves and nodes.
    #[cycle(copy)]
    pub fn copy(&self) -> Result<Tree, AllocError>
        ensures { IfOk result (λ t. t ≡ self.now) }
    {
        match self {
            Tree::Holder(s) => Ok(Tree::Holder(*s)),
            Tree::Rule(k) => Ok(Tree::Rule(*k)),
            Tree::Step(s, branches) => Ok(Tree::Step(*s, branches.copy()?)),
        }
    }

    /// How many leaves and nodes the tree has; the greatest number where there are more.
    #[cycle(nodes)]
    pub fn nodes(&self) -> u64
        ensures { result ≡ capped (nodes_of (shape_of self.now)) }
    {
        match self {
            Tree::Holder(_) => 1,
            Tree::Rule(_) => 1,
            Tree::Step(_, branches) => branches.nodes().saturating_add(1),
        }
    }
}

impl Clone for Tree {
    ghost is_clone = { λ x y. y ≡ x };

    fn clone(&self) -> Result<Tree, AllocError> {
        self.copy()
    }
}

impl Branch {
    /// A branch with the same user and an equal tree.
    #[cycle(copy)]
    pub fn copy(&self) -> Result<Branch, AllocError>
        ensures { IfOk result (λ b. b ≡ self.now) }
    {
        let kid = match &self.kid {
            Kid::Tree(tree) => Kid::Tree(tree.copy()?),
            Kid::Twin(twin) => Kid::Twin(*twin),
        };
        Ok(Branch {
            user: self.user,
            kid,
        })
    }

    #[cycle(nodes)]
    fn nodes(&self) -> u64
        ensures { result ≡ capped (nodes_of_kids (branch_onto self.now no_kids)) }
    {
        match &self.kid {
            Kid::Tree(tree) => tree.nodes(),
            Kid::Twin(_) => 1,
        }
    }
}

impl Branches {
    /// No branches.
    pub fn new(alloc: Global) -> Branches
        ensures { result ≡ no_kids }
    {
        Branches {
            items: Vec::new(alloc),
        }
    }

    /// How many branches there are.
    pub fn len(&self) -> usize
        ensures { result ≡ kid_count self.now }
    {
        self.items.len()
    }

    /// The branch at a place, if there is one.
    pub fn get(&self, i: usize) -> Option<&Branch>
        ensures { MatchOption result (kid_count self.now ≤ i)
            (λ b. kids_from i self.now ≡ branch_onto b.now (kids_from (i + 1) self.now)) }
    {
        self.items.get(i)
    }

    /// The branches, in order.
    pub fn as_slice(&self) -> &[Branch]
        ensures { self.now ≡ kids_of_items result.now }
    {
        &self.items
    }

    /// Adds a branch after the others.
    pub fn push(&mut self, branch: Branch) -> Result<(), AllocError>
        ensures ok { OnOk result (self.new ≡ joined self.old (branch_onto branch no_kids)) }
        ensures err { OnErr result (self.new ≡ self.old) }
    {
        self.items.push(branch)?;
        Ok(())
    }

    /// Branches with the same users and equal trees.
    #[cycle(copy)]
    pub fn copy(&self) -> Result<Branches, AllocError>
        ensures { IfOk result (λ b. b ≡ self.now) }
    {
        let mut copies = Branches::new(*self.items.allocator());
        'branches: for branch in &self.items {
            copies.push(branch.copy()?)?;
        }
        Ok(copies)
    }

    #[cycle(nodes)]
    fn nodes(&self) -> u64
        ensures { result ≡ capped (nodes_of_kids self.now) }
    {
        let mut count: u64 = 0;
        'branches: for branch in &self.items {
            count = count.saturating_add(branch.nodes());
        }
        count
    }
}
