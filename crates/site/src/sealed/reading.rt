// Reading a site from the bytes of a map.
ghost use Rattle.std.specs.Prelude.{◌≡◌, IfOk, Ok, Err};
ghost use Rattle.site.specs.Plans.{Plan};
ghost use Rattle.site.specs.Maps.{read_map, written, Says};
ghost use Rattle.site.specs.Faults.{Refuses};
ghost use Rattle.site.specs.Promises.{Sound};
ghost use Rattle.site.specs.Sites.{plan, told};

use super::Site;
use crate::reader;
use crate::refusals::{Cause, Refusal};

impl Site {
    // The site that a map says, or the cause and place at which the map is refused.
    pub fn read(bytes: &[u8]) -> Result<Site, Refusal>
        ensures defined { told result ≡ read_map bytes.now }
        ensures read { (s : Plan) → told result ≡ Ok s → Says bytes.now s }
        ensures all { (s : Plan) → Says bytes.now s → told result ≡ Ok s }
        ensures refused { (e : Refusal) → told result ≡ Err e → Refuses bytes.now e.cause e.place }
        ensures sound { IfOk result (λ s. Sound (plan s)) }
        ensures back { (s : Plan) → Sound s → read_map (written s) ≡ Ok s }
    {
        let draft = reader::declare_all(bytes)?;
        if !draft.is_sealable() {
            return Err(Cause::Unsealable.at(bytes.len()));
        }
        Ok(Site { draft })
    }
}
