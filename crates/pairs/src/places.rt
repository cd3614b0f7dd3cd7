// The places at which rules are asked: a port, a class and a point.
ghost use Rattle.site.specs.Sites.{plan};
ghost use Rattle.pairs.specs.Places.{Placed};

use kind::Kind;
use paths::Port;
use site::{Cause, Refusal, Site};

#[derive(Drop)]
pub struct Spot<'p, P> {
    pub port: Port,
    pub class: u8,
    pub point: &'p P,
}

// Whether the port and the class are the site's, and the point is on the ground; the first that fails counts.
pub fn check_place<K: Kind>(site: &Site, spot: &Spot<K::Point>) -> Result<(), Refusal>
    ensures { Placed (plan site.now) K.Kind.sense spot.now.port spot.now.class spot.now.point.now result }
{
    if !spot.port.is_in(site) || usize::from(spot.class) >= site.class_count() {
        return Err(Cause::NoPortOrClass.at(0));
    }
    if !K::on_ground(spot.point) {
        return Err(Cause::OffGround.at(0));
    }
    Ok(())
}
