// The variables of a site, kept from one world to the next.
ghost use Rattle.std.specs.Prelude.{◌≡◌, ℕ, List, IfOk};
ghost use Rattle.std.specs.Arc.{arc_value};
ghost use Rattle.std.proofs.Props.{props};
ghost use Rattle.site_base.specs.Plain.{hash};
ghost use Rattle.site_config.specs.Config.{config};
ghost use Rattle.site_reader.specs.declared.site.Site.{Site as AnySite};
ghost use Rattle.site_variables.specs.Resting.{IsOn};
ghost use Rattle.site_world.specs.Codes.{flat_plain};
ghost use Rattle.site_world.specs.Shelves.{shelved};
ghost use Rattle.site_world.specs.Sights.{variable_named};

use crate::shelf::Shelf;
use crate::shelves::variables;
use site_base::Memory;
use site_reader::Site;
use site_variables::Basis;
use std::alloc::Global;
use std::sync::Arc;

/// The variables of a site, which are used again for the next one where all that they rest on is the same.
pub struct KeptVariables {
    last: Option<Based>,
}

// A call of its own, so that no proof goes by cases where a session is dropped.
impl Drop for KeptVariables {
    fn drop(self) {
        let KeptVariables { last: _ } = self;
    }
}

// Variables with what they rest on. They are those of each site with this basis.
#[derive(Drop)]
struct Based {
    basis: Basis,
    variables: Arc<Shelf>,
    ghost shown: { (site : AnySite) → IsOn basis site → site.config ≡ config (hash site.config.all) → (x : List ℕ) → shelved (arc_value variables) x ≡ variable_named x site } by { Prim.hlevel (props, flat_plain) },
}

impl KeptVariables {
    /// None are kept yet.
    pub fn new() -> KeptVariables {
        KeptVariables { last: None }
    }

    /// The variables of a site: those that are kept, or else new ones, which are kept from now on.
    pub(crate) fn of(&mut self, alloc: Global, site: &Site) -> Result<Arc<Shelf>, Memory>
        requires { site.now.config ≡ config (hash site.now.config.all) }
        ensures { IfOk result (λ made. (x : List ℕ) → shelved (arc_value made) x ≡ variable_named x site.now) }
    {
        if let Some(last) = &self.last {
            if last.basis.is_of(site) {
                return share(&last.variables);
            }
        }
        // Those of another basis are let go before memory is taken for new ones.
        self.last = None;
        let made = Based::of(alloc, site)?;
        let variables = share(&made.variables)?;
        self.last = Some(made);
        Ok(variables)
    }
}

impl Based {
    fn of(alloc: Global, site: &Site) -> Result<Based, Memory>
        requires { site.now.config ≡ config (hash site.now.config.all) }
        ensures { IfOk result (λ made. IsOn made.basis site.now) }
    {
        let basis = Basis::of(alloc, site)?;
        let variables = shared_variables(alloc, site)?;
        Ok(Based { basis, variables })
    }
}

/// The variables of a site, for several holders.
pub(crate) fn shared_variables(alloc: Global, site: &Site) -> Result<Arc<Shelf>, Memory>
    ensures { IfOk result (λ made. (x : List ℕ) → shelved (arc_value made) x ≡ variable_named x site.now) }
{
    match Arc::new(alloc, variables(alloc, site)?) {
        Ok(made) => Ok(made),
        Err(_) => Err(Memory),
    }
}

fn share(variables: &Arc<Shelf>) -> Result<Arc<Shelf>, Memory>
    ensures { IfOk result (λ shared. arc_value shared ≡ arc_value variables.now) }
{
    match variables.clone() {
        Ok(shared) => Ok(shared),
        Err(_) => Err(Memory),
    }
}
