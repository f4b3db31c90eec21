//! Whether a key may stand in a table.
ghost use Rattle.std.specs.List.{list_any};
ghost use Rattle.std.specs.Prelude.{◌≡◌, not, ◌&&◌, bytes_eq};
ghost use Rattle.plant_keys.specs.Code.{keys_of};
ghost use Rattle.plant_keys.specs.Keys.{is_allowed};

use crate::keys::Key;

/// Whether a key is one of these, and not excluded.
#[tactic(auto, using(crate::proofs::KeyLists::is_allowed_map))]
pub(crate) fn is_allowed(keys: &[Key], name: &str) -> bool
    ensures { result ≡ is_allowed (keys_of keys.now) name.now }
{
    is_among(keys, name)
}

/// Whether one of these keys has the name and isn't excluded.
fn is_among(keys: &[Key], name: &str) -> bool
    ensures { result ≡ list_any (λ k. bytes_eq k.name.now name.now && not k.excluded) keys.now }
{
    for key in keys {
        if key.name == name && !key.excluded {
            return true;
        }
    }
    false
}
