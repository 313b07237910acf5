ghost use Rattle.std.specs.Prelude.{◌↔◌, IsTrue};
ghost use Rattle.std.specs.Option.{option_map};
ghost use Rattle.plan_model.specs.Offers.{IsFirst, Names};

use crate::offers::Offers;
use build_pool::Order;
use pkg_state::Pkg;

/// Whether the addition names the package.
fn is_named(addition: &Order, pkg: &Pkg) -> bool
    ensures { IsTrue result ↔ Names addition.now pkg.now }
{
    let facts = &pkg.facts;
    facts.id.is_same(&addition.id)
        && facts.slot == addition.slot
        && facts.subslot == addition.subslot
}

/// The first package that the addition names, if one is offered.
pub(crate) fn find<'a>(addition: &Order, offers: &Offers<'a>) -> Option<&'a Pkg>
    ensures { IsFirst addition.now offers.now.offered.now
        (option_map (λ p. p.now) result) }
{
    for &pkg in offers.named.get(addition.id.name.package.text()) {
        if is_named(addition, pkg) {
            return Some(pkg);
        }
    }
    None
}
