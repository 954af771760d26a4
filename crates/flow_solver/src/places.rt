//! Who has routed each commodity, and along which path.

ghost use Rattle.std.specs.Prelude.{◌≡◌, ◌⊎◌, ℕ, ◌<◌, ◌≤◌, All, IfOk, length, slice_index_or};
ghost use Rattle.phase_engine.specs.Routes.{Route};
ghost use Rattle.flow_solver.specs.Routes.{HaveRouted};
ghost use Rattle.flow_solver.specs.Adding.{no_place, ArePlaces, IsPlaceAt};

use flow_model::Net;
use mcf_limits::{MAX_DEMANDS, MAX_WORKERS};
use phase_engine::Hand;
use std::alloc::{AllocError, Global};

/// The number of a hand, and the path of one of its routes.
#[derive(Clone, Copy)]
pub(crate) struct Place<'a> {
    pub hand: u16,
    pub path: &'a [u16],
}

// Notes the routes of one hand.
fn note_routes<'a>(places: &mut [Place<'a>], w: u16, hand: &'a Hand)
    requires { All (λ (r : Route). r.commodity < length places.old) hand.now.routes }
    ensures kept { (k : ℕ) → k < length places.old
        → (slice_index_or places.new k no_place ≡ slice_index_or places.old k no_place)
        ⊎ IsPlaceAt w hand.now k (slice_index_or places.new k no_place) }
    ensures noted { All (λ (r : Route). IsPlaceAt w hand.now r.commodity
        (slice_index_or places.new r.commodity no_place)) hand.now.routes }
{
    for route in 0..hand.routes.len() {
        let k = hand.routes.commodity(route);
        let path = hand.routes.path(route);
        places[k as usize] = Place { hand: w, path };
    }
}

/// Who has routed each commodity, and along which path.
pub(crate) fn places_of<'a>(
    alloc: Global,
    net: &Net,
    hands: &'a [Hand],
) -> Result<Vec<Place<'a>>, AllocError>
    requires hands { length hands.now ≤ MAX_WORKERS }
    requires routes { HaveRouted net.now hands.now }
    ensures count { IfOk result (λ v. length v.items ≡ length net.now.commodities) }
    ensures few { IfOk result (λ v. length v.items ≤ MAX_DEMANDS) }
    ensures places { IfOk result (λ v. ArePlaces net.now hands.now v.items) }
{
    let none = Place { hand: 0, path: &[] };
    let mut places = vec![in alloc; none; net.commodities().len()]?;
    for (w, hand) in hands.iter().enumerate() {
        note_routes(&mut places, w as u16, hand);
    }
    Ok(places)
}
