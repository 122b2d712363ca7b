//! Which rules a change of a relation's pairs may concern.
ghost use Rattle.std.specs.Prelude.{◌≡◌, ◌==◌, ◌||◌};
ghost use Rattle.user_relations.specs.Laws.Relations.{complement_of};
ghost use Rattle.admin_edits.specs.Hurting.{is_number, is_over};

use constraint_forms::Rule;
use user_relations::Relations;
use wf_names::RelId;

/// Whether a rule reads a relation or its complement.
pub fn is_over(relations: &Relations, rho: RelId, rule: &Rule) -> bool
    ensures { result ≡ is_over relations.now rho rule.now }
{
    match rule.relation() {
        Some(own) => is_or_complements(relations, rho, own),
        None => false,
    }
}

/// Whether a relation is another one or its complement.
fn is_or_complements(relations: &Relations, rho: RelId, own: RelId) -> bool
    ensures { result ≡ ((own == rho) || is_number rho (complement_of relations.now own)) }
{
    own == rho || relations.complement_of(own) == Some(rho)
}
