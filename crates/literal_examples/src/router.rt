//! A router: it finds the prefix with which a path begins.
ghost use Rattle.std.specs.Prelude.{◌≡◌};
ghost use Rattle.literal_base.specs.declared.packed.MatchKind.TheVariants.{LeftmostLongest};
ghost use Rattle.literal_examples.specs.Routes.{IsRoute};

use literal_search::{PatternID, Search};

/// The longest of the prefixes with which a path begins. They are searched for with `MatchKind::LeftmostLongest`.
pub fn route(prefixes: &Search, path: &[u8]) -> Option<PatternID>
    requires { prefixes.now.query.kind ≡ LeftmostLongest }
    ensures { IsRoute prefixes.now.query.patterns prefixes.now.ignore_case path.now result }
{
    let found = prefixes.match_at(path, 0)?;
    Some(found.pattern())
}
