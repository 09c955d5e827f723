//! The sites of single steps, by the places that they access.

ghost use Rattle.std.specs.Prelude.{◌≡◌, IfOk, map};
ghost use Rattle.sc_core.specs.Core.{argument};
ghost use Rattle.sc_core.specs.Forms.{form_of};
ghost use Rattle.sc_core.specs.View.{plain_core, arguments_of, linked};
ghost use Rattle.sc_core.specs.ViewParts.{plain_core_first, plain_core_link};
ghost use Rattle.flow_form.specs.Forms.{form_by};
ghost use Rattle.flow_form.specs.Steps.{site_of};
ghost use Rattle.flow_draw.specs.Around.{within_of};
ghost use Rattle.flow_draw.specs.Drawings as drawings;

use crate::around::Around;
use crate::drawing::site_by;
use sc_core::{CoreExpr, CoreFirst, CoreLink, Operation};
use site_graph::{Form, Site};
use std::alloc::AllocError;

/// The form of the place that a chain gives.
#[tactic(auto, using(std::proofs::lemmas::Grind::common_steps, crate::proofs::Placed::placed))]
pub fn form_of_chain(
    around: &Around,
    first: &CoreFirst,
    links: &[CoreLink],
) -> Result<Form, AllocError>
    ensures { IfOk result (λ form. form ≡ form_by (within_of around.now)
        (form_of (linked (plain_core_first first.now) (map plain_core_link links.now)))) }
{
    let form = index_form::form_of_chain(around.alloc, around.nodes, around.mines, first, links)?;
    Ok(form)
}

/// The form of the place that an expression gives.
#[tactic(auto, using(std::proofs::lemmas::Grind::common_steps, flow_form::proofs::Counting::core_reads))]
pub fn form_of_place(around: &Around, place: &CoreExpr) -> Result<Form, AllocError>
    ensures { IfOk result (λ form. form ≡ form_by (within_of around.now) (form_of (plain_core place.now))) }
{
    let form = form_of_chain(around, &place.first, place.links.as_slice())?;
    Ok(form)
}

/// The site of an operation whose first argument is this chain.
pub fn site_at(
    around: &Around,
    operation: Operation,
    first: &CoreFirst,
    links: &[CoreLink],
    line: u32,
) -> Result<Option<Site>, AllocError>
    ensures { IfOk result (λ site. site ≡ drawings.site_by operation line (form_by (within_of around.now)
        (form_of (linked (plain_core_first first.now) (map plain_core_link links.now))))) }
{
    match operation {
        Operation::Read | Operation::Write => {
            let form = form_of_chain(around, first, links)?;
            Ok(site_by(operation, line, form))
        }
        _ => Ok(None),
    }
}

/// The site of a step with these arguments.
#[tactic(auto, using(std::proofs::lemmas::Grind::common_steps, crate::proofs::Walked::reads, crate::proofs::Walked::sites))]
pub fn site_of(
    around: &Around,
    operation: Operation,
    arguments: &[CoreExpr],
    line: u32,
) -> Result<Option<Site>, AllocError>
    ensures { IfOk result (λ site. site
        ≡ site_of (within_of around.now) operation (arguments_of (map plain_core arguments.now)) line) }
{
    match arguments.first() {
        Some(place) => {
            let site = site_at(
                around,
                operation,
                &place.first,
                place.links.as_slice(),
                line,
            )?;
            Ok(site)
        }
        None => Ok(site_by(operation, line, Form::Exposed)),
    }
}
