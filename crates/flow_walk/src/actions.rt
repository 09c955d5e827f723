//! What the points of actions do, and what they access.

ghost use Rattle.std.specs.Prelude.{◌≡◌, IfOk, map};
ghost use Rattle.sc_core.specs.View.{plain_core, arguments_of};
ghost use Rattle.flow_form.specs.Forms as forms;
ghost use Rattle.flow_form.specs.Steps as steps;
ghost use Rattle.flow_form.specs.Written as written;
ghost use Rattle.flow_draw.specs.Around.{within_of};

use flow_draw::Around;
use flow_draw::places::form_of_place;
use sc_core::{Action, CoreExpr};
use site_graph::{Form, PointKind, Site, SiteKind};
use sqlite_items::at;
use std::alloc::AllocError;

/// What the point of an action does, where an access is that of this site.
pub fn kind_of_action(action: Action, site: u32) -> PointKind
    ensures { result ≡ steps.kind_of_action action site }
{
    match action {
        Action::Fill(_) | Action::Get(_) | Action::Put | Action::Send | Action::Copy(_) => {
            PointKind::Access(site)
        }
        Action::Sync => PointKind::Sync,
        Action::Barrier => PointKind::Barrier,
        Action::AllStoreSync => PointKind::StoreSync,
        _ => PointKind::Plain,
    }
}

/// The local that an action sets, if any.
pub fn set_by_action(action: Action) -> Option<u32>
    ensures { result ≡ written.set_by_action action }
{
    match action {
        Action::Begin(local) | Action::Fill(local) | Action::Get(local) => Some(local),
        Action::Clear { local, .. } => Some(local),
        _ => None,
    }
}

/// The form of the place that is the argument with this number, from 0.
#[tactic(auto, using(std::proofs::lemmas::Grind::common_steps, crate::proofs::Acting::places))]
fn form_at(around: &Around, arguments: &[CoreExpr], number: usize) -> Result<Form, AllocError>
    ensures { IfOk result (λ form. form
        ≡ forms.form_at (within_of around.now) (arguments_of (map plain_core arguments.now)) number) }
{
    match at(arguments, number) {
        Some(place) => {
            let form = form_of_place(around, place)?;
            Ok(form)
        }
        None => Ok(Form::Exposed),
    }
}

/// An access that reads a cell of this form, and fills a local or none.
fn reading(kind: SiteKind, line: u32, form: Form, fills: Option<u32>) -> Option<Site>
    ensures { result ≡ steps.site_with kind line (Some form) None fills }
{
    Some(Site {
        kind,
        line,
        reads: Some(form),
        writes: None,
        fills,
    })
}

/// An access that writes a cell of this form.
fn writing(kind: SiteKind, line: u32, form: Form) -> Option<Site>
    ensures { result ≡ steps.site_with kind line None (Some form) None }
{
    Some(Site {
        kind,
        line,
        reads: None,
        writes: Some(form),
        fills: None,
    })
}

/// The access of an action with these arguments, if it is one.
pub fn site_of_action(
    around: &Around,
    action: Action,
    arguments: &[CoreExpr],
    line: u32,
) -> Result<Option<Site>, AllocError>
    ensures { IfOk result (λ site. site
        ≡ steps.site_of_action (within_of around.now) action (arguments_of (map plain_core arguments.now)) line) }
{
    match action {
        Action::Fill(local) => {
            let form = form_at(around, arguments, 0)?;
            Ok(reading(SiteKind::Read, line, form, Some(local)))
        }
        Action::Get(_) => {
            let form = form_at(around, arguments, 0)?;
            Ok(reading(SiteKind::Get, line, form, None))
        }
        Action::Put => {
            let form = form_at(around, arguments, 0)?;
            Ok(writing(SiteKind::Put, line, form))
        }
        Action::Send => {
            let form = form_at(around, arguments, 0)?;
            Ok(writing(SiteKind::Store, line, form))
        }
        Action::Copy(mode) => {
            let from = form_at(around, arguments, 1)?;
            let to = form_at(around, arguments, 0)?;
            Ok(Some(Site {
                kind: SiteKind::Copy(mode),
                line,
                reads: Some(from),
                writes: Some(to),
                fills: None,
            }))
        }
        _ => Ok(None),
    }
}
