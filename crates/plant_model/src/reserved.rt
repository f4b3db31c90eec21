ghost use Rattle.std.specs.Prelude.{◌≡◌};
ghost use Rattle.plant_model.specs.Refusals.{is_reserved};

/// Whether a name is one that no stage may have.
pub fn is_reserved(name: &[u8]) -> bool
    ensures { result ≡ is_reserved name.now }
{
    name == b"feed".as_slice() || name == b"deliver".as_slice()
}
