// What a limit allows.
ghost use Rattle.std.specs.Prelude.{◌≡◌};
ghost use Rattle.model.specs.Ceilings.{allowed};

use model::OMEGA;

// A limit allows a count.
pub fn is_allowed(limit: usize, count: usize) -> bool
    ensures { result ≡ allowed limit count }
{
    limit == OMEGA || count <= limit
}
