//! Bounds on the prefixes of routes and selections.

ghost use Rattle.std.specs.Prelude.{◌≡◌};
ghost use Rattle.babel_choice.specs.PrefixBounds.{is_before, is_through, route_not_after, before_falls, through_falls};

use crate::RouteKey;
use babel_table::Bound;
use babel_value::Prefix;

/// The prefixes that are lesser than this one.
#[derive(Drop)]
pub struct Before {
    /// The prefix.
    pub prefix: Prefix,
}

impl Bound<RouteKey> for Before {
    ghost is_below = { λ bound key. is_before bound.prefix key.prefix };

    ghost falling = { λ bound x y upwards. before_falls bound.prefix x.prefix y.prefix (route_not_after x y upwards) };

    fn is_below(&self, key: &RouteKey) -> bool {
        key.prefix.cmp(&self.prefix).is_lt()
    }
}

/// The prefixes that aren't greater than this one; none if there is none.
#[derive(Drop)]
pub struct Through {
    /// The greatest of them, if there is one.
    pub prefix: Option<Prefix>,
}

impl Bound<RouteKey> for Through {
    ghost is_below = { λ bound key. is_through bound.prefix key.prefix };

    ghost falling = { λ bound x y upwards. through_falls bound.prefix x.prefix y.prefix (route_not_after x y upwards) };

    fn is_below(&self, key: &RouteKey) -> bool {
        is_through(self.prefix, &key.prefix)
    }
}

impl Bound<Prefix> for Through {
    ghost is_below = { λ bound. is_through bound.prefix };

    ghost falling = { λ bound. through_falls bound.prefix };

    fn is_below(&self, key: &Prefix) -> bool {
        is_through(self.prefix, key)
    }
}

fn is_through(bound: Option<Prefix>, prefix: &Prefix) -> bool
    ensures { result ≡ is_through bound prefix.now }
{
    match bound {
        Some(bound) => !bound.cmp(prefix).is_lt(),
        None => false,
    }
}
